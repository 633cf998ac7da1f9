// Numbers as the bytes of a field's value, high byte first, one function for each kind. A number that the bytes can't hold is written as
// one out of range, and the reader refuses it.
ghost use Rattle.std.specs.Prelude.{◌≡◌, ◌≤◌};
ghost use Rattle.order_numbers.specs.Bytes.{byte_for, word_for, two_bytes, sixteen_for, signed_bytes, shift_for, shift_byte};
ghost use Rattle.order_numbers.specs.Bytes.{float_bytes};

use float64::bits::to_bits;
use integers::parts::{above, below};

// -0.0, and the NaN that is written in its place: -0.0 would be read as 0.0.
const MINUS_ZERO: u64 = 0x8000_0000_0000_0000;

const NAN: u64 = 0x7ff8_0000_0000_0000;

pub fn byte_for(n: u32) -> u8
    ensures { result ≡ byte_for n }
{
    n.min(255) as u8
}

fn two_bytes(n: u32) -> [u8; 2]
    requires { n ≤ 65535 }
    ensures { result ≡ two_bytes n }
{
    (n as u16).to_be_bytes()
}

pub fn word_bytes(n: u32) -> [u8; 2]
    ensures { result ≡ two_bytes (word_for n) }
{
    two_bytes(n.min(65535))
}

// A signed number in sixteen bits, from how far it is above and below zero, as the definition sixteen_for has it.
fn sixteen_for(above: u64, below: u64) -> u32
    ensures value { result ≡ sixteen_for above below }
    ensures upper_bound { result ≤ 65535 }
{
    if below > 32768 {
        return 32767;
    }
    if above > 32767 {
        return 32767;
    }
    ((above + (65536 - below)) % 65536) as u32
}

pub fn signed_bytes(z: i32) -> [u8; 2]
    ensures { result ≡ signed_bytes z }
{
    two_bytes(sixteen_for(above(z as i64), below(z as i64)))
}

// Tried as a match on z: the proof did not close, since no fact of a signed match's arms can be cited.
fn shift_for(above: u64, below: u64) -> u8
    ensures { result ≡ shift_for above below }
{
    if below > 1 {
        return 255;
    }
    if above > 1 {
        return 255;
    }
    (above + 1 - below) as u8
}

// A shift of -1, 0 or 1, stored plus 1.
pub fn shift_byte(z: i32) -> u8
    ensures { result ≡ shift_byte z }
{
    shift_for(above(z as i64), below(z as i64))
}

pub fn float_bytes(x: f64) -> [u8; 8]
    ensures { result ≡ float_bytes x }
{
    let n = to_bits(x);
    if n == MINUS_ZERO {
        return NAN.to_be_bytes();
    }
    n.to_be_bytes()
}
