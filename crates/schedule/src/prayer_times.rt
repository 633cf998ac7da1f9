// schedule.rs: the nine times of a date, from the hour numbers of its sun and of the two days after it.
ghost use Rattle.std.specs.Prelude.{◌≡◌, ◌^◌, ◌+ℤ◌};
ghost use Rattle.integers.specs.Parts.{Near};
ghost use Rattle.models.specs.declared.prayer.Prayer.TheVariants.{Fajr};
ghost use Rattle.models.specs.declared.rounding.Rounding.TheVariants.{Nearest};
ghost use Rattle.models.specs.Settings.{time_adjustments_of};
ghost use Rattle.whole_minutes.specs.Times.{rounded_of, adjusted_of};
ghost use Rattle.schedule.specs.Fajr.{fajr_alone_of};
ghost use Rattle.schedule.specs.Times.{start_of, final_of, fajr_tomorrow_of, middle_of_the_night_of, qiyam_of, from_midnight_of, started_of};
ghost use Rattle.schedule.specs.Times.{since_of, worked_of, worked_by};
ghost use Rattle.schedule.specs.Each.{Each, NearIn};
ghost use Rattle.schedule.specs.Twilight.{unadjusted_fajr_of};

use super::hours::{RowHours, RowNumbers, ThreeSuns};
use super::twilight::{Day, Seconds};
use calendar::dates::Date;
use models::parameters::Parameters;
use models::prayer::Prayer;
use models::rounding::Rounding;
use models::rules::Season;
use models::setting::Setting;
use night_portions::portions::{last_third, middle};
use refusals::Refusal;
use solar::times::SolarTime;
use whole_minutes::times::{adjust_time, rounded_minute};

// In seconds from 1970-01-01 0h UTC, or from 0h of the date if a function says so. Always in this order: they are not sorted.
// How near to 0h they are is a clause (Each, NearIn) and no invariant, since the structure is C's and holds the times from 1970 too.
#[repr(C)]
#[derive(Clone, Copy)]
pub struct PrayerTimes {
    pub fajr: i64,
    pub sunrise: i64,
    pub dhuhr: i64,
    pub asr: i64,
    pub maghrib: i64,
    pub isha: i64,
    pub middle_of_the_night: i64,
    pub qiyam: i64,
    pub fajr_tomorrow: i64,
}

// Two times of the night, which is from maghrib to tomorrow's Fajr.
#[derive(Clone, Copy)]
struct Night {
    middle: i64,
    last_third: i64,
}

// Adds the prayer's own minutes and the method's, then rounds.
fn final_time(parameters: Parameters, prayer: Prayer, time: Seconds, rounding: Rounding) -> i64
    ensures { (result ≡ rounded_of rounding (adjusted_of time.count (time_adjustments_of parameters prayer))) × Near (2 ^ 40) result }
{
    rounded_minute(
        adjust_time(time.count, parameters.time_adjustments(prayer)),
        rounding,
    )
}

// The time `seconds` after maghrib, to the nearest minute.
fn into_the_night(maghrib: i64, seconds: i64) -> i64
    requires { Near (2 ^ 40) maghrib × Near (2 ^ 42) seconds }
    ensures { (result ≡ rounded_of Nearest (maghrib +ℤ seconds)) × Near (2 ^ 43) result }
{
    rounded_minute(maghrib + seconds, Rounding::Nearest)
}

fn calculate_qiyam(maghrib: i64, fajr: i64) -> Night
    requires { Near (2 ^ 40) maghrib × Near (2 ^ 41) fajr }
    ensures { ((result.middle ≡ middle_of_the_night_of maghrib fajr) × Near (2 ^ 43) result.middle)
        × ((result.last_third ≡ qiyam_of maghrib fajr) × Near (2 ^ 43) result.last_third) }
{
    let night = fajr - maghrib;
    Night {
        middle: into_the_night(maghrib, middle(night)),
        last_third: into_the_night(maghrib, last_third(night)),
    }
}

impl Day {
    // Tomorrow's Fajr is adjusted but not rounded.
    #[tactic(auto, unfolding(crate::specs::Times::fajr_tomorrow_of))]
    fn next_fajr(self, tomorrow: SolarTime, after: SolarTime, hour: Option<i32>) -> i64
        ensures { (result ≡ fajr_tomorrow_of self.parameters self.season self.date tomorrow after hour) × Near (2 ^ 41) result }
    {
        let next = Day {
            date: self.date.tomorrow(),
            ..self
        };
        let fajr = next.unadjusted_fajr(tomorrow, after, hour);
        final_time(self.parameters, Prayer::Fajr, fajr, Rounding::None) + 86400
    }

    // The nine times, in seconds from 0h of the date.
    fn from_midnight(self, suns: ThreeSuns, hours: RowHours) -> PrayerTimes
        ensures { (result ≡ from_midnight_of self.parameters self.season self.date suns hours) × Each (Near (2 ^ 43)) result }
    {
        let parameters = self.parameters;
        let rounding = parameters.rounding;
        let today = suns.today;
        let tomorrow = suns.tomorrow;
        let sunrise = Seconds::from(today.sunrise);
        let transit = Seconds::from(today.transit);
        let sunset = Seconds::from(today.sunset);
        let fajr = self.unadjusted_fajr(today, tomorrow, hours.fajr);
        let asr = transit.unless(hours.asr);
        let isha = self.unadjusted_isha(today, tomorrow, hours.isha);
        let maghrib = final_time(parameters, Prayer::Maghrib, sunset, rounding);
        let fajr_tomorrow = self.next_fajr(tomorrow, suns.after, hours.fajr_tomorrow);
        let night = calculate_qiyam(maghrib, fajr_tomorrow);
        PrayerTimes {
            fajr: final_time(parameters, Prayer::Fajr, fajr, rounding),
            sunrise: final_time(parameters, Prayer::Sunrise, sunrise, rounding),
            dhuhr: final_time(parameters, Prayer::Dhuhr, transit, rounding),
            asr: final_time(parameters, Prayer::Asr, asr, rounding),
            maghrib,
            isha: final_time(parameters, Prayer::Isha, isha, rounding),
            middle_of_the_night: night.middle,
            qiyam: night.last_third,
            fajr_tomorrow,
        }
    }

    // The Fajr of the nine times. The other eight are not worked.
    #[tactic(auto, unfolding(crate::specs::Times::final_of))]
    fn final_fajr(self, suns: ThreeSuns, hour: Option<i32>) -> i64
        ensures { result ≡ final_of self.parameters Fajr
            (unadjusted_fajr_of self.parameters self.season self.date suns.today suns.tomorrow hour) }
    {
        let parameters = self.parameters;
        let fajr = self.unadjusted_fajr(suns.today, suns.tomorrow, hour);
        final_time(parameters, Prayer::Fajr, fajr, parameters.rounding)
    }
}

// 0h of a date, in seconds from 1970-01-01 0h UTC.
#[tactic(auto, unfolding(crate::specs::Times::start_of))]
fn start(date: Date) -> i64
    ensures { (result ≡ start_of date) × Near (2 ^ 58) result }
{
    date.day_number() * 86400
}

// The nine times, in seconds from 1970-01-01 0h UTC.
#[tactic(auto, unfolding(crate::specs::Times::started_of))]
fn started(date: Date, times: PrayerTimes) -> PrayerTimes
    requires { Each (Near (2 ^ 43)) times }
    ensures { result ≡ started_of (start_of date) times }
{
    let start = start(date);
    PrayerTimes {
        fajr: start + times.fajr,
        sunrise: start + times.sunrise,
        dhuhr: start + times.dhuhr,
        asr: start + times.asr,
        maghrib: start + times.maghrib,
        isha: start + times.isha,
        middle_of_the_night: start + times.middle_of_the_night,
        qiyam: start + times.qiyam,
        fajr_tomorrow: start + times.fajr_tomorrow,
    }
}

impl RowHours {
    // The nine in seconds from 0h of the date, or its refusal.
    #[tactic(auto, unfolding(crate::specs::Times::since_of, crate::specs::Times::since_from, crate::specs::Each::NearIn))]
    pub fn since_midnight(
        self,
        date: Date,
        season: Season,
        parameters: Parameters,
    ) -> Result<PrayerTimes, Refusal>
        ensures { (result ≡ since_of self date season parameters) × NearIn result }
    {
        let day = Day {
            parameters,
            season,
            date,
        };
        Ok(day.from_midnight(self.suns?, self))
    }

    // The nine times of a date, or its refusal.
    #[tactic(auto, unfolding(crate::specs::Times::started_in, crate::specs::Each::NearIn))]
    pub fn work(
        self,
        date: Date,
        season: Season,
        parameters: Parameters,
    ) -> Result<PrayerTimes, Refusal>
        ensures { result ≡ worked_of self date season parameters }
    {
        let times = self.since_midnight(date, season, parameters)?;
        Ok(started(date, times))
    }
}

// Works the Fajr of `date` and none of its other times, in seconds from 0h of the date. `date` is the first of the three dates of these suns.
#[tactic(auto, unfolding(crate::specs::Fajr::fajr_alone_of))]
pub fn fajr_alone(
    suns: Result<ThreeSuns, Refusal>,
    date: Date,
    season: Season,
    parameters: Parameters,
    hour: Option<i32>,
) -> Option<i64>
    ensures { result ≡ fajr_alone_of suns date season parameters hour }
{
    let day = Day {
        parameters,
        season,
        date,
    };
    suns.ok().map(|three| day.final_fajr(three, hour))
}

impl PrayerTimes {
    // What a host finds in place of the times of a refused day.
    pub const NONE: PrayerTimes = PrayerTimes {
        fajr: 0,
        sunrise: 0,
        dhuhr: 0,
        asr: 0,
        maghrib: 0,
        isha: 0,
        middle_of_the_night: 0,
        qiyam: 0,
        fajr_tomorrow: 0,
    };

    pub fn new(numbers: RowNumbers, date: Date, setting: Setting) -> Result<PrayerTimes, Refusal>
        ensures { result ≡ worked_by numbers date setting }
    {
        RowHours::new(setting.rules.midnight, numbers).work(
            date,
            setting.season(),
            setting.parameters,
        )
    }
}
