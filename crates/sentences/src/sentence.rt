// The two calls: a refusal's sentence into a lent buffer, and the refusal that bytes say.
ghost use Rattle.std.specs.Prelude.{◌≡◌};
ghost use Rattle.sentences.specs.Guess.{guessed_of, meaning_from};
ghost use Rattle.sentences.specs.Sentences.{unwritten, sentence_call_of, meaning_of};

use super::line::sentence_in;
use super::reading::{number_in, place_in};
use super::{Meaning, WrittenSentence};
use refusals::{BUFFER_SHORT, OUT_OF_RANGE, Refusal};
use text::put::put;

fn refuse(number: u32) -> WrittenSentence
    ensures { result ≡ unwritten number }
{
    WrittenSentence {
        number,
        place: 0,
        length: 0,
    }
}

// The sentence is made apart from the buffer first. So an unknown number is refused before the buffer is checked, and a buffer without room
// keeps every byte.
pub fn write_sentence(number: u32, place: u32, buffer: &mut [u8]) -> WrittenSentence
    ensures value { result ≡ (sentence_call_of number place buffer.old).answer }
    ensures buffer_after { buffer.new ≡ (sentence_call_of number place buffer.old).buffer }
{
    let mut line = [0u8; 100];
    let Some(sentence) = sentence_in(&mut line, number, place) else {
        return refuse(OUT_OF_RANGE);
    };
    if sentence.len() > buffer.len() {
        return refuse(BUFFER_SHORT);
    }
    put(&mut buffer[..], 0, sentence);
    WrittenSentence {
        number: 0,
        place: 0,
        length: sentence.len() as u32,
    }
}

// The number and the place are read where a sentence has them, and then their whole sentence is compared with the bytes. So no wrong byte
// passes, and leading zeros, signs and bytes after the sentence need no rule of their own.
fn refusal_in(bytes: &[u8]) -> Option<Refusal>
    ensures { meaning_from result ≡ guessed_of bytes.now }
{
    let number = number_in(bytes);
    let place = place_in(bytes)?;
    let mut line = [0u8; 100];
    let sentence = sentence_in(&mut line, number, place)?;
    (sentence == bytes).then_some(Refusal::new(number, place))
}

// Reads a sentence. All other bytes are refused.
pub fn read_sentence(bytes: &[u8]) -> Meaning
    ensures { result ≡ meaning_of bytes.now }
{
    match refusal_in(bytes) {
        Some(said) => Meaning {
            number: 0,
            place: 0,
            of_number: said.number,
            of_place: said.place,
        },
        None => Meaning {
            number: OUT_OF_RANGE,
            place: 0,
            of_number: 0,
            of_place: 0,
        },
    }
}
