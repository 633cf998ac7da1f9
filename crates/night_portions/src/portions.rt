// schedule.rs: portions of a night, cut toward zero to whole seconds, also when the night is negative.
#![tactic(auto, unfolding(
// A literal of the code is the decimal of the formula, and two thirds are a constant.
float64::proofs::Floats::dec, float64::proofs::Floats::div, float64::proofs::Floats::round, float64::proofs::Floats::of_bits,
// What is added at the night's ends.
crate::specs::Portions::portion_after_of, crate::specs::Portions::portion_before_of,
// What is added to maghrib.
crate::specs::Portions::middle_of, crate::specs::Portions::last_third_of))]

ghost use Rattle.std.specs.Prelude.{◌≡◌};
ghost use Rattle.std.specs.Float.{binary64};
ghost use Rattle.std.specs.Float.Ieee.{of_int};
ghost use Rattle.night_portions.specs.Portions.{portion_after_of, portion_before_of, seventh_of, middle_of, last_third_of};

use float64::casts::to_i64;
use std::num::nearest_i64_to_f64;

// From -2^53 to 2^53 every whole number is a float.
const LEAST_EXACT: i64 = -(1 << 53);

const MOST_EXACT: i64 = 1 << 53;

// The source's `2.0 / 3.0`.
const TWO_THIRDS: f64 = 2.0 / 3.0;

// `seconds` as a float. From -2^53 to 2^53, where every night is, the cast is one instruction.
fn to_float(seconds: i64) -> f64
    ensures { result ≡ of_int binary64 seconds }
{
    if LEAST_EXACT <= seconds && seconds <= MOST_EXACT {
        seconds as f64
    } else {
        nearest_i64_to_f64(seconds)
    }
}

// What Isha's bound adds to sunset.
pub fn portion_after(portion: f64, night: i64) -> i64
    ensures { result ≡ portion_after_of portion night }
{
    to_i64(portion * to_float(night))
}

// What Fajr's bound adds to sunrise: the negated portion is cut.
pub fn portion_before(portion: f64, night: i64) -> i64
    ensures { result ≡ portion_before_of portion night }
{
    to_i64(-(portion * to_float(night)))
}

// A seventh in whole numbers, which the MoonsightingCommittee method uses from latitude 55 on.
pub fn seventh(night: i64) -> i64
    ensures { result ≡ seventh_of night }
{
    night / 7
}

// The seconds from maghrib to the middle of the night, which ends at tomorrow's Fajr.
pub fn middle(night: i64) -> i64
    ensures { result ≡ middle_of night }
{
    to_i64(to_float(night) / 2.0)
}

// The seconds from maghrib to the last third of the same night.
pub fn last_third(night: i64) -> i64
    ensures { result ≡ last_third_of night }
{
    to_i64(to_float(night) * TWO_THIRDS)
}
