// solar.rs: an hour number as a time, in seconds from 0h of its date. An i32 holds these seconds, so no sum of them has to saturate.
ghost use Rattle.std.specs.Prelude.{◌≡◌, true};
ghost use Rattle.std.specs.Float.Ieee.{lt};
ghost use Rattle.float64.specs.Ops.{dec};
ghost use Rattle.solar.specs.Setting.{hour_adjustment_of, minute_of, hour_of, setting_hour_of};

use float64::casts::to_u32;
use float64::sizes::is_normal;
use float64::whole::{floor, round};

// An hour of yesterday (0), of the date (1) or of tomorrow (2). A number and no enum: code, definitions and the sentences of
// CarriesPastMidnight multiply it by the seconds of a day.
#[derive(Clone, Copy)]
pub struct Placed {
    pub ahead: u8,
    pub hour: u32,
}

// The hour as one of yesterday, of the date or of tomorrow. It is 0 to 23 if the number is not beyond these three days.
#[tactic(auto, unfolding(crate::specs::Setting::hour_adjustment_of, float64::proofs::Floats::dec, float64::proofs::Floats::round, float64::proofs::Floats::of_bits))]
pub fn hour_adjustment(calculated_hours: f64) -> Placed
    ensures { result ≡ hour_adjustment_of calculated_hours }
{
    if calculated_hours < 0.0 {
        return Placed {
            ahead: 0,
            hour: to_u32(calculated_hours + 24.0),
        };
    }
    if calculated_hours < 24.0 {
        return Placed {
            ahead: 1,
            hour: to_u32(calculated_hours),
        };
    }
    Placed {
        ahead: 2,
        hour: to_u32(calculated_hours - 24.0),
    }
}

// The nearest minute. It is computed in floats because the floored seconds can be -1.
#[tactic(auto, unfolding(crate::specs::Setting::minute_of, float64::proofs::Floats::dec, float64::proofs::Floats::round, float64::proofs::Floats::of_bits))]
pub(crate) fn minute(value: f64, calculated_hours: f64) -> u32
    ensures { result ≡ minute_of value calculated_hours }
{
    let calculated_minutes = floor((value - calculated_hours) * 60.0);
    let seconds = (value - (calculated_hours + calculated_minutes / 60.0)) * 60.0 * 60.0;
    to_u32(round(calculated_minutes + floor(seconds) / 60.0))
}

// The same, without a division and a rounding if minutes and seconds are both between 0 and 60, which is nearly always so: then one minute
// is added from 30 seconds on. The tests are before the floor, which then needs no tests of its own.
fn date_minute(value: f64, calculated_hours: f64) -> u32
    ensures { result ≡ minute_of value calculated_hours }
{
    let minutes = (value - calculated_hours) * 60.0;
    if 0.0 < minutes && minutes < 60.0 {
        let calculated_minutes = floor(minutes);
        let seconds = (value - (calculated_hours + calculated_minutes / 60.0)) * 60.0 * 60.0;
        if 0.0 < seconds && seconds < 60.0 {
            return calculated_minutes as u32 + !(seconds < 30.0) as u32;
        }
    }
    minute(value, calculated_hours)
}

#[tactic(auto, unfolding(crate::specs::Setting::hour_of))]
pub(crate) fn hour(p: Placed, minute: u32) -> Option<i32>
    ensures { result ≡ hour_of p minute }
{
    let Placed { ahead, hour } = p;
    if minute < 60 {
        if hour < 24 {
            let n = (ahead as u32) * 86400 + hour * 3600 + minute * 60;
            return Some(n as i32 - 86400);
        }
        return None;
    }
    if hour < 23 {
        let n = (ahead as u32) * 86400 + (hour + 1) * 3600;
        return Some(n as i32 - 86400);
    }
    None
}

// A number above 1 and below 24 is normal, and its floored hours are an hour of the date.
fn date_hour(value: f64) -> Option<i32>
    requires { (lt (dec 1 0) value ≡ true) × (lt value (dec 24 0) ≡ true) }
    ensures { result ≡ setting_hour_of value }
{
    let calculated_hours = floor(value);
    let placed = Placed {
        ahead: 1,
        hour: calculated_hours as u32,
    };
    hour(placed, date_minute(value, calculated_hours))
}

// The time of an hour number, if it has one.
pub fn setting_hour(value: f64) -> Option<i32>
    ensures { result ≡ setting_hour_of value }
{
    if 1.0 < value && value < 24.0 {
        return date_hour(value);
    }
    if is_normal(value) {
        let hours = floor(value);
        return hour(hour_adjustment(hours), minute(value, hours));
    }
    None
}
