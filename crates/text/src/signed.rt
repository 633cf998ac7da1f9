// Signed numbers by their decimal digits. Only a number below zero has a minus.
ghost use Rattle.std.specs.Prelude.{◌≡◌, length};
ghost use Rattle.text.specs.Text.{put_of, front_of};
ghost use Rattle.text.specs.Signed.{signed_of};

use super::decimal::put_decimal;
use super::put::put;

// A minus and twenty digits.
const MOST_BYTES: usize = 21;

// Writes a number at the front of `text`. Returns how many bytes it has.
fn make_signed(text: &mut [u8; MOST_BYTES], z: i64) -> usize
    ensures value { result ≡ length (signed_of z) }
    ensures text_after { text.new ≡ front_of (signed_of z) text.old }
{
    if z < 0 {
        put(text, 0, b"-");
        1 + put_decimal(text, 1, z.unsigned_abs())
    } else {
        put_decimal(text, 0, z.unsigned_abs())
    }
}

// Writes a number into a lent buffer, as `put` does. Returns how many bytes it has. The number is made in an array first: a buffer
// without room for all of it keeps every byte.
pub fn put_signed(buffer: &mut [u8], at: usize, z: i64) -> usize
    ensures value { result ≡ length (signed_of z) }
    ensures buffer_after { buffer.new ≡ put_of buffer.old at (signed_of z) }
{
    let mut text = [0u8; MOST_BYTES];
    let end = make_signed(&mut text, z);
    put(buffer, at, &text[..end]);
    end
}
