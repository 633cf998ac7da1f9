// The words of a bit pattern, as fdlibm reads and writes them.
ghost use Rattle.std.specs.Prelude.{◌≡◌};
ghost use Rattle.std.specs.Float.{nan};
ghost use Rattle.float64.specs.Words.{is_negative_of, high_of, low_cleared_of};

use super::bits::{from_bits, to_bits};

#[tactic(auto, using(crate::proofs::Methods::nan_is))]
pub fn not_a_number() -> f64
    ensures { result ≡ nan }
{
    f64::NAN
}

// The sign bit, which tells -0.0 from 0.0. False for a NaN.
#[tactic(auto, using(crate::proofs::Methods::negative_is, crate::proofs::Methods::nan_plus))]
pub fn is_negative(x: f64) -> bool
    ensures { result ≡ is_negative_of x }
{
    !x.is_nan() && x.is_sign_negative()
}

// The high word with the sign cleared: a measure of x's size that is cheap to compare.
#[tactic(auto, unfolding(crate::specs::Words::high_of))]
pub fn high_word(x: f64) -> u32
    ensures { result ≡ high_of x }
{
    (to_bits(x) % 0x8000_0000_0000_0000 / 0x1_0000_0000) as u32
}

// x with its low word cleared. The product of two of these numbers is exact.
#[tactic(auto, unfolding(crate::specs::Words::low_cleared_of))]
pub fn cut(x: f64) -> f64
    ensures { result ≡ low_cleared_of x }
{
    from_bits(to_bits(x) / 0x1_0000_0000 * 0x1_0000_0000)
}
