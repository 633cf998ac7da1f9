// unit.rs's rounded_minute and adjust_time. A time is whole seconds from 1970-01-01 0h UTC. A result beyond an i64's range is the range's
// end. chrono's own range is smaller, and chrono panics at its end.
ghost use Rattle.std.specs.Prelude.{◌≡◌, ◌≤◌, pos, ◌+ℤ◌};
ghost use Rattle.whole_minutes.specs.Times.{sat_of, second_of, shift_of, rounded_of, adjusted_of};

use models::rounding::Rounding;

// A minute more is still below 2^32.
const MOST_SHORT: i64 = 4294967000;

// Beyond 2^64 / 60 minutes no time stays in range.
const MOST_MINUTES: i64 = 307445734561825860;

// The sum, as chrono's checked_add_signed gives it in its range.
pub fn plus(a: i64, b: i64) -> i64
    ensures { result ≡ sat_of (a +ℤ b) }
{
    a.saturating_add(b)
}

pub fn second(t: i64) -> u32
    ensures { result ≡ second_of t }
{
    t.rem_euclid(60) as u32
}

fn shift(rounding: Rounding, s: u32) -> i64
    ensures { result ≡ shift_of rounding s }
{
    let n = s as i64;
    match rounding {
        Rounding::Nearest => if s < 30 { -n } else { 60 - n },
        Rounding::Up => 60 - n,
        Rounding::None => 0,
    }
}

// A time that 32 bits hold, and its rounded one too: one division is enough.
fn rounded_short(t: u32, rounding: Rounding) -> u32
    requires { t ≤ 4294967000 }
    ensures { pos result ≡ rounded_of rounding (pos t) }
{
    match rounding {
        Rounding::Nearest => (t + 30) / 60 * 60,
        Rounding::Up => t / 60 * 60 + 60,
        Rounding::None => t,
    }
}

// Nearly every time that is rounded counts from 0h of its date, so 32 bits hold it.
pub fn rounded_minute(t: i64, rounding: Rounding) -> i64
    ensures { result ≡ sat_of (rounded_of rounding t) }
{
    if (0..=MOST_SHORT).contains(&t) {
        return rounded_short(t as u32, rounding) as i64;
    }
    plus(t, shift(rounding, second(t)))
}

// Up to MOST_MINUTES an i64 holds half of the seconds, but maybe not all: half is added twice.
pub fn adjust_time(t: i64, minutes: i64) -> i64
    ensures { result ≡ sat_of (adjusted_of t minutes) }
{
    if minutes > MOST_MINUTES {
        return i64::MAX;
    }
    if minutes < -MOST_MINUTES {
        return i64::MIN;
    }
    let half = minutes * 30;
    plus(plus(t, half), half)
}
