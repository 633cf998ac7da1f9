// The Julian Day in f64: ops.rs's julian_day, and Stride's on a date.
ghost use Rattle.std.specs.Prelude.{◌≡◌};
ghost use Rattle.julian.specs.Julian.{correction_of, from_march_of, julian_day_of, to_i32_of, date_julian_day_of};

use calendar::dates::Date;
use float64::casts::to_i32;
use std::num::nearest_i64_to_f64;

// The Gregorian calendar's correction for the centuries.
fn correction(year: i64) -> i64
    ensures { result ≡ correction_of year }
{
    let a = year / 100;
    2 - a + a / 4
}

// The month is 3 to 14: January and February are months 13 and 14 of the year before.
fn from_march(year: i64, month: i64, day: f64) -> f64
    ensures { result ≡ from_march_of year month day }
{
    let b = correction(year);
    let i0 = to_i32(365.25 * (nearest_i64_to_f64(year) + 4716.0));
    let i1 = to_i32(30.6001 * (nearest_i64_to_f64(month) + 1.0));
    (i0 as f64) + (i1 as f64) + day + nearest_i64_to_f64(b) - 1524.5
}

// The source's i32 year and month are i64 here: the year before the least i32 and a month above the largest do not wrap.
pub fn julian_day(year: i32, month: i32, day: i32, hours: f64) -> f64
    ensures { result ≡ julian_day_of year month day hours }
{
    let adjusted_day = day as f64 + hours / 24.0;
    if month > 2 {
        from_march(year as i64, month as i64, adjusted_day)
    } else {
        from_march(year as i64 - 1, month as i64 + 12, adjusted_day)
    }
}

// n, or the largest i32 if n is above it.
#[tactic(auto, unfolding(crate::specs::Julian::to_i32_of))]
fn saturated(n: u32) -> i32
    ensures { result ≡ to_i32_of n }
{
    n.min(i32::MAX as u32) as i32
}

// The Julian Day of a date at 0 h.
pub fn date_julian_day(date: Date) -> f64
    ensures { result ≡ date_julian_day_of date }
{
    julian_day(
        saturated(date.year),
        saturated(date.month),
        saturated(date.day),
        0.0,
    )
}
