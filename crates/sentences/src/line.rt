// A sentence at the front of a line, piece by piece.
ghost use Rattle.std.specs.Prelude.{◌≡◌, true, false, length, MatchOption};
ghost use Rattle.text.specs.Text.{front_of};
ghost use Rattle.sentences.specs.Table.{known};
ghost use Rattle.sentences.specs.Sentences.{words_of, sentence_of};

use super::table::{name_of, text_of};
use text::decimal::put_decimal;
use text::put::put;

// Writes the words before the place: the text, and after a colon the name of the tag that the place is. Returns their length, or None for an
// unknown number.
fn put_words(line: &mut [u8; 100], number: u32, place: u32) -> Option<usize>
    ensures value { MatchOption result (known number ≡ false) (λ n. (known number ≡ true) × (n ≡ length (words_of number place))) }
    ensures line_after { line.new ≡ front_of (words_of number place) line.old }
{
    let text = text_of(number);
    if text.is_empty() {
        return None;
    }
    put(&mut line[..], 0, text.as_bytes());
    if !text.ends_with(':') {
        return Some(text.len());
    }
    let name = name_of(place);
    put(&mut line[..], text.len(), name.as_bytes());
    Some(text.len() + name.len())
}

// Writes the sentence. Returns its length, or None for an unknown number, which leaves the line as it was.
pub fn put_sentence(line: &mut [u8; 100], number: u32, place: u32) -> Option<usize>
    ensures value { MatchOption result (known number ≡ false) (λ n. (known number ≡ true) × (n ≡ length (sentence_of number place))) }
    ensures line_after { line.new ≡ front_of (sentence_of number place) line.old }
{
    let words = put_words(&mut *line, number, place)?;
    put(&mut line[..], words, b" ");
    Some(words + 1 + put_decimal(&mut line[..], words + 1, u64::from(place)))
}

// The sentence, as the part of the line that it is written into.
pub fn sentence_in<'a>(line: &'a mut [u8; 100], number: u32, place: u32) -> Option<&'a [u8]>
    ensures { MatchOption result (known number ≡ false) (λ s. (known number ≡ true) × (s.now ≡ sentence_of number place)) }
{
    let end = put_sentence(&mut *line, number, place)?;
    Some(&line[..end])
}
