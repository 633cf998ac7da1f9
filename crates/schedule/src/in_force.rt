// schedule.rs: the prayer in force, the next one and the time until it. The crate reads the clock; here the instant is given. The crate
// panics if no prayer is in force; here the result says so.
ghost use Rattle.std.specs.Prelude.{◌≡◌, ◌==◌, ◌-ℤ◌, find, reverse};
ghost use Rattle.integers.specs.Parts.{P};
ghost use Rattle.schedule.specs.InForce.{time_of, ahead_of, current_time_of, following_of, next_of, hours_minutes_of, time_remaining_of};

use super::prayer_times::PrayerTimes;
use float64::casts::to_u32;
use float64::whole::{round, trunc};
use models::prayer::Prayer;
use std::num::nearest_u64_to_f64;

// The nanoseconds of a second.
pub const IN_SECOND: u64 = 1000000000;

// The list of the prayers of a day, in its order.
const PRAYERS: [Prayer; 8] = [
    Prayer::Fajr,
    Prayer::Sunrise,
    Prayer::Dhuhr,
    Prayer::Asr,
    Prayer::Maghrib,
    Prayer::Isha,
    Prayer::Qiyam,
    Prayer::FajrTomorrow,
];

// Seconds from 1970-01-01 0h UTC, rounded down, and the nanoseconds after them.
#[derive(Clone, Copy)]
pub struct Instant {
    pub seconds: i64,
    pub nanoseconds: u32,
}

#[repr(C)]
#[derive(Clone, Copy)]
pub struct HoursMinutes {
    pub hours: u32,
    pub minutes: u32,
}

// The seconds from `seconds` to `time`, or 0 if `time` is not later. The difference of two i64 fits a u64, but not always an i64.
fn between(seconds: i64, time: i64) -> u64
    ensures { result ≡ P (time -ℤ seconds) }
{
    if time < seconds {
        return 0;
    }
    time.abs_diff(seconds)
}

// The whole seconds from an instant to a time. If the instant has nanoseconds, the second that they begin is not counted.
fn ahead(time: i64, instant: Instant) -> u64
    ensures { result ≡ ahead_of time instant }
{
    let begun = u64::from(instant.nanoseconds).div_ceil(IN_SECOND);
    between(instant.seconds, time).saturating_sub(begun)
}

fn following(prayer: Prayer) -> Prayer
    ensures { result ≡ following_of prayer }
{
    match prayer {
        Prayer::Fajr => Prayer::Sunrise,
        Prayer::Sunrise => Prayer::Dhuhr,
        Prayer::Dhuhr => Prayer::Asr,
        Prayer::Asr => Prayer::Maghrib,
        Prayer::Maghrib => Prayer::Isha,
        Prayer::Isha => Prayer::Qiyam,
        Prayer::Qiyam => Prayer::FajrTomorrow,
        Prayer::FajrTomorrow => Prayer::FajrTomorrow,
    }
}

#[tactic(auto, unfolding(crate::specs::InForce::hours_minutes_of, float64::proofs::Floats::dec, float64::proofs::Floats::round, float64::proofs::Floats::of_bits))]
fn hours_minutes(seconds: u64) -> HoursMinutes
    ensures { result ≡ hours_minutes_of seconds }
{
    let whole = nearest_u64_to_f64(seconds) / 60.0 / 60.0;
    let hours = trunc(whole);
    let fract = whole - hours;
    HoursMinutes {
        hours: to_u32(hours),
        minutes: to_u32(round(fract * 60.0)),
    }
}

// The last of the given prayers whose time is less than a second ahead.
fn last_reached(prayers: &[Prayer], times: PrayerTimes, instant: Instant) -> Option<Prayer>
    ensures { result ≡ find (λ p. ahead_of (time_of times p) instant == 0) (reverse prayers.now) }
{
    prayers
        .iter()
        .rev()
        .copied()
        .find(|prayer| ahead(times.time(*prayer), instant) == 0)
}

impl PrayerTimes {
    #[tactic(auto, unfolding(crate::specs::InForce::time_of))]
    pub fn time(self, prayer: Prayer) -> i64
        ensures { result ≡ time_of self prayer }
    {
        match prayer {
            Prayer::Fajr => self.fajr,
            Prayer::Sunrise => self.sunrise,
            Prayer::Dhuhr => self.dhuhr,
            Prayer::Asr => self.asr,
            Prayer::Maghrib => self.maghrib,
            Prayer::Isha => self.isha,
            Prayer::Qiyam => self.qiyam,
            Prayer::FajrTomorrow => self.fajr_tomorrow,
        }
    }

    // The last prayer in the list whose time is less than a second ahead. A later one in the list may have an earlier time.
    #[tactic(auto, unfolding(crate::specs::InForce::last_of, models::specs::Numbers::prayer_of))]
    pub fn current_time(self, instant: Instant) -> Option<Prayer>
        ensures { result ≡ current_time_of self instant }
    {
        last_reached(&PRAYERS, self, instant)
    }

    #[tactic(auto, unfolding(crate::specs::InForce::following_current_of))]
    pub fn next(self, instant: Instant) -> Option<Prayer>
        ensures { result ≡ next_of self instant }
    {
        self.current_time(instant).map(following)
    }

    #[tactic(auto, unfolding(crate::specs::InForce::until_of))]
    pub fn time_remaining(self, instant: Instant) -> Option<HoursMinutes>
        ensures { result ≡ time_remaining_of self instant }
    {
        self.next(instant)
            .map(|prayer| hours_minutes(ahead(self.time(prayer), instant)))
    }
}
