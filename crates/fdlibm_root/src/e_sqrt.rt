// sqrt(x): the exact root, rounded once to the nearest float, with no square root instruction.
//
// Method.
//   1. A NaN and a number below zero have no root. A zero and the infinity are their own roots.
//   2. Any other x is m * 4^k for a whole m with 2^52 <= m < 2^54: its significand, moved up to 53 digits if x is subnormal, and
//      doubled if the exponent is odd. The root is sqrt(m * 2^52) * 2^(k - 26), and sqrt(m * 2^52) is in [2^52, 2^53).
//      So the significand of the rounded root is the whole number s nearest to it: s * (s - 1) < m * 2^52 <= s * (s + 1).
//      It is never a tie, since the square of s + 1/2 is not whole.
//   3. certify.rt makes a candidate for s with floats. Nothing bounds their errors. It computes the exact difference of the candidate's
//      square and m * 2^52 in whole numbers, which tells whether the candidate or a neighbour of it is s.
//   4. If none of them is s, which is rare, digits.rt finds s one binary digit at a time.
//   Both promise of s what step 2 says, and the proof uses nothing else of them: the result does not depend on the candidate.
ghost use Rattle.std.specs.Prelude.{◌≡◌, ◌+◌, ◌*◌, ◌-◌, ◌^◌, ◌≤◌, ◌<◌};
ghost use Rattle.std.specs.Float.Ieee.{of_bits};
ghost use Rattle.std.specs.Float.{binary64};
ghost use Rattle.fdlibm_root.specs.Root.{rounded_root, sqrt_of};
ghost use Rattle.fdlibm_root.specs.Near.{NearRoot};

use crate::certify::{LEADING, corrected, estimate};
use crate::digits::by_digits;

// the infinity's pattern
const INFINITY: u64 = 0x7ff0_0000_0000_0000;

// The whole number nearest to the root of m * 2^52, where m is the significand, doubled if `odd` is 1.
fn nearest(significand: u64, odd: u64) -> u64
    requires { (2 ^ 52 ≤ significand) × (significand < 2 ^ 53) × (odd < 2) }
    ensures { NearRoot (significand * (1 + odd)) result }
{
    let m = significand * (1 + odd);
    corrected(m, estimate(significand + (odd + 1022) * LEADING)).unwrap_or_else(|| by_digits(m))
}

// The pattern of the root of significand * 2^(exponent - 2098). The leading digit of the root's significand adds one to the exponent's
// field.
fn root_pattern(significand: u64, exponent: u64) -> u64
    requires { (2 ^ 52 ≤ significand) × (significand < 2 ^ 53) × (972 ≤ exponent) × (exponent < 3900) }
    ensures { (of_bits binary64 result ≡ rounded_root (significand * 2 ^ (exponent - 898))) × (result < 0x7ff0_0000_0000_0000) }
{
    (exponent / 2 - 1) * LEADING + nearest(significand, exponent % 2)
}

// The pattern of the root of a subnormal float, t * 2^-1074: t is moved up to 53 digits.
fn subnormal_pattern(t: u64) -> u64
    requires { (0 < t) × (t < 2 ^ 52) }
    ensures { (of_bits binary64 result ≡ rounded_root (t * 2 ^ 126)) × (result < 0x7ff0_0000_0000_0000) }
{
    let places = t.leading_zeros() - 11;
    root_pattern(t << places, 1024 - places as u64)
}

pub fn sqrt(x: f64) -> f64
    ensures { result ≡ sqrt_of x }
{
    if x > 0.0 {
        let b = f64::to_bits(x);
        if b < LEADING {
            f64::from_bits(subnormal_pattern(b))
        } else if b < INFINITY {
            f64::from_bits(root_pattern(b % LEADING + LEADING, b / LEADING + 1023))
        } else {
            x
        }
    } else if x == 0.0 {
        x
    } else {
        f64::NAN
    }
}
