// schedule.rs: Fajr and Isha, before their minutes are added. Each is the time of an angle, bounded by a portion of the night or by the
// season. Times are seconds from 0h of the date. The sun's times are i32, so an i64 holds every sum here for all parameters.
ghost use Rattle.std.specs.Prelude.{◌≡◌, ◌^◌, ◌+ℤ◌};
ghost use Rattle.integers.specs.Parts.{Near};
ghost use Rattle.schedule.specs.Twilight.{night_of, later_of, earlier_of, or_of, by_season_of, by_seventh_of, own_of, short_of};
ghost use Rattle.schedule.specs.Twilight.{fajr_bound_of, unadjusted_fajr_of, isha_bound_of, bounded_isha_of, unadjusted_isha_of};

use calendar::dates::Date;
use models::method::Method;
use models::parameters::Parameters;
use models::rounding::Rounding;
use models::rules::Season;
use night_portions::portions::{portion_after, portion_before, seventh};
use ops::season::{evening_twilight_seconds, morning_twilight_seconds};
use solar::times::SolarTime;
use whole_minutes::times::rounded_minute;

const MOST32: i64 = 2147483647;

const LEAST32: i64 = -2147483648;

// A date, with the parameters and the season that its times depend on.
#[derive(Clone, Copy)]
pub struct Day {
    pub parameters: Parameters,
    pub season: Season,
    pub date: Date,
}

// Seconds from 0h of a date, so near to it that the minutes of every order can be added.
#[derive(Clone, Copy)]
pub struct Seconds {
    pub count: i64,
    ghost near: { Near (2 ^ 38) count },
}

// Seconds limited to the range of an i32. No order's seconds come near its ends.
#[tactic(auto, unfolding(crate::specs::Twilight::short_of))]
fn short(seconds: i64) -> i64
    ensures { (result ≡ short_of seconds) × Near (2 ^ 31) result }
{
    seconds.clamp(LEAST32, MOST32)
}

// A time of the sun, moved by `seconds`.
fn moved(time: i32, seconds: i64) -> i64
    ensures { (result ≡ time +ℤ short_of seconds) × Near (2 ^ 32) result }
{
    i64::from(time) + short(seconds)
}

// The next sunrise less sunset.
#[tactic(auto, unfolding(crate::specs::Twilight::night_of))]
fn night(today: SolarTime, next: SolarTime) -> i64
    ensures { (result ≡ night_of today next) × Near (2 ^ 33) result }
{
    i64::from(next.sunrise) + 86400 - i64::from(today.sunset)
}

impl From<i32> for Seconds {
    ghost from_gives = { λ time seconds. seconds.count ≡ time };

    fn from(time: i32) -> Seconds {
        Seconds {
            count: i64::from(time),
        }
    }
}

// Two comparisons are all that is asked of their order, so there is no derived Ord.
impl Seconds {
    // `seconds` after a time of the sun.
    fn after(time: i32, seconds: i64) -> Seconds
        ensures { result.count ≡ time +ℤ short_of seconds }
    {
        Seconds {
            count: moved(time, seconds),
        }
    }

    #[tactic(auto, unfolding(crate::specs::Twilight::later_of))]
    fn later(self, other: Seconds) -> Seconds
        ensures { result.count ≡ later_of self.count other.count }
    {
        if self.count < other.count {
            other
        } else {
            self
        }
    }

    #[tactic(auto, unfolding(crate::specs::Twilight::earlier_of))]
    fn earlier(self, other: Seconds) -> Seconds
        ensures { result.count ≡ earlier_of self.count other.count }
    {
        if other.count < self.count {
            other
        } else {
            self
        }
    }

    // `hour`'s time, or this one if it has none.
    #[tactic(auto, unfolding(crate::specs::Twilight::or_of))]
    pub fn unless(self, hour: Option<i32>) -> Seconds
        ensures { result.count ≡ or_of hour self.count }
    {
        hour.map_or(self, Seconds::from)
    }
}

// MoonsightingCommittee bounds by season.
fn by_season(method: Method) -> bool
    ensures { result ≡ by_season_of method }
{
    matches!(method, Method::MoonsightingCommittee)
}

// From latitude 55 on, MoonsightingCommittee takes a seventh of the night in place of the angle.
#[tactic(auto, unfolding(crate::specs::Twilight::by_seventh_of, float64::proofs::Floats::dec, float64::proofs::Floats::round, float64::proofs::Floats::of_bits))]
pub fn by_seventh(method: Method, latitude: f64) -> bool
    ensures { result ≡ by_seventh_of method latitude }
{
    latitude >= 55.0 && by_season(method)
}

impl Day {
    // The time that is compared with `bound`: the one by a seventh of the night, or the angle's.
    #[tactic(auto, unfolding(crate::specs::Twilight::own_of))]
    fn own(self, seventh: Seconds, hour: Option<i32>, bound: Seconds) -> Seconds
        ensures { result.count ≡ own_of self.parameters.method self.season.latitude seventh.count hour bound.count }
    {
        if by_seventh(self.parameters.method, self.season.latitude) {
            return seventh;
        }
        bound.unless(hour)
    }

    #[tactic(auto, unfolding(crate::specs::Twilight::before_sunrise_of))]
    fn fajr_bound(self, today: SolarTime, night: i64) -> Seconds
        ensures { result.count ≡ fajr_bound_of self.parameters self.season self.date today night }
    {
        if by_season(self.parameters.method) {
            let seconds = morning_twilight_seconds(
                self.season,
                self.date.ordinal(),
                self.date.year,
            );
            return Seconds::after(today.sunrise, seconds);
        }
        let portions = self.parameters.night_portions();
        Seconds::after(today.sunrise, portion_before(portions.fajr, night))
    }

    #[tactic(auto, unfolding(crate::specs::Twilight::unadjusted_fajr_of))]
    pub fn unadjusted_fajr(self, today: SolarTime, next: SolarTime, hour: Option<i32>) -> Seconds
        ensures { result.count ≡ unadjusted_fajr_of self.parameters self.season self.date today next hour }
    {
        let night = night(today, next);
        let bound = self.fajr_bound(today, night);
        let by_night = Seconds {
            count: i64::from(today.sunrise) - seventh(night),
        };
        self.own(by_night, hour, bound).later(bound)
    }

    #[tactic(auto, unfolding(crate::specs::Twilight::isha_bound_of, crate::specs::Twilight::after_sunset_of))]
    fn isha_bound(self, today: SolarTime, night: i64) -> Seconds
        ensures { result.count ≡ isha_bound_of self.parameters self.season self.date today night }
    {
        if by_season(self.parameters.method) {
            let shafaq = self.parameters.shafaq;
            let seconds = evening_twilight_seconds(
                self.season,
                self.date.ordinal(),
                self.date.year,
                shafaq,
            );
            return Seconds {
                count: rounded_minute(moved(today.sunset, seconds), Rounding::Nearest),
            };
        }
        let portions = self.parameters.night_portions();
        Seconds::after(today.sunset, portion_after(portions.isha, night))
    }

    // Isha without an interval.
    #[tactic(auto, unfolding(crate::specs::Twilight::bounded_isha_of))]
    fn bounded_isha(self, today: SolarTime, next: SolarTime, hour: Option<i32>) -> Seconds
        ensures { result.count ≡ bounded_isha_of self.parameters self.season self.date today next hour }
    {
        let night = night(today, next);
        let bound = self.isha_bound(today, night);
        let by_night = Seconds {
            count: i64::from(today.sunset) + seventh(night),
        };
        self.own(by_night, hour, bound).earlier(bound)
    }

    #[tactic(auto, unfolding(crate::specs::Twilight::unadjusted_isha_of))]
    pub fn unadjusted_isha(self, today: SolarTime, next: SolarTime, hour: Option<i32>) -> Seconds
        ensures { result.count ≡ unadjusted_isha_of self.parameters self.season self.date today next hour }
    {
        let interval = self.parameters.isha_interval;
        if interval > 0 {
            return Seconds {
                count: i64::from(today.sunset) + i64::from(interval) * 60,
            };
        }
        self.bounded_isha(today, next, hour)
    }
}
