// Carry past midnight (added): an hour number that rounds to hour 24 is 00:00 of the date after the one taken.
ghost use Rattle.std.specs.Prelude.{◌≡◌};
ghost use Rattle.solar.specs.PastMidnight.{has_time_of, next_midnight_of, carried_of, carried_hour_of};

use super::setting::{Placed, hour, hour_adjustment, minute};
use float64::sizes::is_normal;
use float64::whole::floor;

// Whether a number is from -24 to below 48. False for a NaN.
#[tactic(auto, unfolding(crate::specs::PastMidnight::has_time_of, float64::proofs::Floats::dec, float64::proofs::Floats::round, float64::proofs::Floats::of_bits))]
fn has_time(value: f64) -> bool
    ensures { result ≡ has_time_of value }
{
    (-24.0 <= value) & (value < 48.0)
}

// 00:00 of the date after the one taken.
fn next_midnight(ahead: u8) -> Option<i32>
    ensures { result ≡ next_midnight_of ahead }
{
    Some(((ahead as u32) * 86400) as i32)
}

// The time by the source's rule. If that has none, the hour came to 24, and the time is the next midnight.
#[tactic(auto, using(crate::proofs::PastMidnightLaws::carry_from))]
fn carried(p: Placed, minute: u32) -> Option<i32>
    ensures { result ≡ carried_of p minute }
{
    hour(p, minute).or(next_midnight(p.ahead))
}

// The time of an hour number, if it has one. A number in the range that is not normal is zero or subnormal.
#[tactic(auto, unfolding(crate::specs::PastMidnight::carried_hour_of))]
pub fn carried_hour(value: f64) -> Option<i32>
    ensures { result ≡ carried_hour_of value }
{
    if !has_time(value) {
        return None;
    }
    if !is_normal(value) {
        return Some(0);
    }
    let hours = floor(value);
    carried(hour_adjustment(hours), minute(value, hours))
}
