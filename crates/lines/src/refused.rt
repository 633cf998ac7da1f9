// The lines of what is refused: a day, while the run goes on, or a whole order.
ghost use Rattle.std.specs.Prelude.{◌≡◌, ◌+◌, ◌≤◌, length};
ghost use Rattle.text.specs.Text.{put_of, front_of};
ghost use Rattle.lines.specs.Lines.{number_text, refused_text, refused_day_text, refused_order_text};

use super::times::date_text;
use calendar::dates::Date;
use refusals::Refusal;
use text::decimal::put_decimal;
use text::put::put;

// Writes a word and a number behind it. Returns where they end.
fn put_number(line: &mut [u8], at: usize, word: &[u8], n: u32) -> usize
    requires { (length word.now ≤ 10) × (at + length word.now + 20 ≤ length line.old) × (length line.old ≤ 70) }
    ensures value { result ≡ at + length (number_text word.now n) }
    ensures line_after { line.new ≡ put_of line.old at (number_text word.now n) }
{
    put(line, at, word);
    let end = at + word.len();
    end + put_decimal(line, end, n as u64)
}

// Writes a refusal's line at the front of seventy bytes. Returns its length. A number has twenty digits at most.
fn make_line(line: &mut [u8], whose: &[u8], word: &[u8], refusal: Refusal) -> usize
    requires { (length whose.now ≤ 10) × (length word.now ≤ 10) × (length line.old ≡ 70) }
    ensures value { result ≡ length (refused_text whose.now word.now refusal) }
    ensures line_after { line.new ≡ front_of (refused_text whose.now word.now refusal) line.old }
{
    put(line, 0, whose);
    let end = put_number(line, whose.len(), b" refused ", refusal.number);
    let end = put_number(line, end, word, refusal.place);
    put(line, end, b"\n");
    end + 1
}

// The line is made by itself first, so that a buffer without room for all of it keeps every byte.
fn put_refused(buffer: &mut [u8], at: usize, whose: &[u8], word: &[u8], refusal: Refusal) -> usize
    requires { (length whose.now ≤ 10) × (length word.now ≤ 10) }
    ensures value { result ≡ length (refused_text whose.now word.now refusal) }
    ensures buffer_after { buffer.new ≡ put_of buffer.old at (refused_text whose.now word.now refusal) }
{
    let mut line = [0u8; 70];
    let end = make_line(&mut line, whose, word, refusal);
    put(buffer, at, &line[..end]);
    end
}

// As `put` does. Returns the line's length.
pub fn put_refused_day(buffer: &mut [u8], at: usize, date: Date, refusal: Refusal) -> usize
    ensures value { result ≡ length (refused_day_text date refusal) }
    ensures buffer_after { buffer.new ≡ put_of buffer.old at (refused_day_text date refusal) }
{
    put_refused(buffer, at, &date_text(date), b" day ", refusal)
}

// As `put` does. Returns the line's length.
pub fn put_refused_order(buffer: &mut [u8], at: usize, refusal: Refusal) -> usize
    ensures value { result ≡ length (refused_order_text refusal) }
    ensures buffer_after { buffer.new ≡ put_of buffer.old at (refused_order_text refusal) }
{
    put_refused(buffer, at, b"order", b" place ", refusal)
}
