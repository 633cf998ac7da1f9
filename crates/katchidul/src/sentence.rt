// Refusals in words.
ghost use Rattle.std.specs.Prelude.{◌≡◌};
ghost use Rattle.sentences.specs.Sentences.{sentence_call_of, meaning_of};

use sentences::sentence::{read_sentence, write_sentence};
use sentences::{Meaning, WrittenSentence};

pub fn katchidul_write_sentence(number: u32, place: u32, buffer: &mut [u8]) -> WrittenSentence
    ensures value { result ≡ (sentence_call_of number place buffer.old).answer }
    ensures buffer_after { buffer.new ≡ (sentence_call_of number place buffer.old).buffer }
{
    write_sentence(number, place, buffer)
}

pub fn katchidul_read_sentence(sentence: &[u8]) -> Meaning
    ensures { result ≡ meaning_of sentence.now }
{
    read_sentence(sentence)
}
