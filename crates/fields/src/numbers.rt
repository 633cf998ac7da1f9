// The numbers that bytes write, high byte first. A byte past the end counts as 0: every call has a result, and no caller has to prove that
// an index is in range.
ghost use Rattle.std.specs.Prelude.{◌≡◌, ◌<◌};
ghost use Rattle.fields.specs.Numbers.{byte_of, unsigned_of, signed_at_of, bits_of, float_of};

use float64::bits::from_bits;

pub fn byte(bytes: &[u8], at: usize) -> u32
    ensures value { result ≡ byte_of bytes.now at }
    ensures upper_bound { result < 256 }
{
    bytes.get(at).map_or(0, |b| u32::from(*b))
}

// The two bytes from an offset on.
pub fn unsigned(bytes: &[u8], at: usize) -> u32
    ensures value { result ≡ unsigned_of bytes.now at }
    ensures upper_bound { result < 65536 }
{
    if at < bytes.len() {
        byte(bytes, at) * 256 + byte(bytes, at + 1)
    } else {
        0
    }
}

// The same two bytes as a signed number.
pub fn signed(bytes: &[u8], at: usize) -> i32
    ensures { result ≡ signed_at_of bytes.now at }
{
    let x = unsigned(bytes, at);
    if x < 32768 {
        x as i32
    } else {
        x as i32 - 65536
    }
}

fn joined(bytes: &[u8]) -> u64
    ensures { result ≡ bits_of bytes.now }
{
    let mut x: u64 = 0;
    for i in 0..8 {
        x = (x << 8) | u64::from(byte(bytes, i));
    }
    x
}

// The first eight bytes. In a slice of just eight the compiler sees that each byte is there, so the test in `byte` is compiled away.
pub fn bits(bytes: &[u8]) -> u64
    ensures { result ≡ bits_of bytes.now }
{
    if bytes.len() < 8 {
        return joined(bytes);
    }
    joined(&bytes[..8])
}

// The float whose bit pattern is the first eight bytes.
pub fn float(bytes: &[u8]) -> f64
    ensures { result ≡ float_of bytes.now }
{
    from_bits(bits(bytes))
}
