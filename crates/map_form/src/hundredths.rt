// The hundredths of a second nearest to an f64, computed from its bit pattern in whole numbers of 64 bits.
ghost use Rattle.std.specs.Prelude.{◌≡◌, true, ◌*◌, ◌/◌, ◌^◌, ◌≤◌, ◌<◌};
ghost use Rattle.map_form.specs.Hundredths.{at_most};
ghost use Rattle.map_form.specs.Written.{hundredths_of};

// The weights of the sign and of the exponent field in a bit pattern. LEADING is also the leading digit, which the pattern leaves out.
const SIGN: u64 = 0x8000_0000_0000_0000;

const LEADING: u64 = 0x0010_0000_0000_0000;

// The whole part of m * 360,000 / 2^20. The product can have 72 binary digits, too many for a u64, so m is split at its 20th.
fn scaled(m: u64) -> u64
    requires { m < 2 ^ 53 }
    ensures { result ≡ m * 360000 / 1048576 }
{
    m / 1048576 * 360000 + m % 1048576 * 360000 / 1048576
}

// |x| is m / 2^s with s = 1075 - e, so twice |x| * 360,000 is m * 360,000 / 2^20 / 2^(s - 21). Its whole part plus one, halved, is the
// nearest count; a half goes up. Below 2^-23 the count is 0. The e of 180 is 1030, so the shift is from 24 to 54.
pub(crate) fn nearest(x: f64) -> u64
    requires { at_most 180 x ≡ true }
    ensures { (result ≡ hundredths_of x) × (result ≤ 64800000) }
{
    let b = x.to_bits() % SIGN;
    let e = b / LEADING;
    if e < 1000 {
        return 0;
    }
    ((scaled(b % LEADING + LEADING) >> (1054 - e)) + 1) / 2
}
