// A day and the prayer in force as exports, for runs against the crate that is ported. A host does not link them.
ghost use Rattle.std.specs.Prelude.{◌≡◌};
ghost use Rattle.calendar.specs.Gregorian.{date_of};
ghost use Rattle.float64.specs.Ops.{dec};
ghost use Rattle.schedule.specs.Times.{worked_by, worked_at};
ghost use Rattle.schedule.specs.InForce.{current_time_of, current_number_of, next_of, time_remaining_of};
ghost use Rattle.days.specs.Calls.{instant_of};
ghost use Rattle.probes.specs.Days.{parameters_from, rules_from, setting_from, probe_day_of, probe_remaining_of};

use calendar::dates::Date;
use models::adjustments::TimeAdjustment;
use models::high_altitude_rule::HighLatitudeRule;
use models::madhab::Madhab;
use models::method::Method;
use models::numbered::Numbered;
use models::parameters::Parameters;
use models::prayer::Prayer;
use models::rounding::Rounding;
use models::rules::{Midnight, Rules, Southern};
use models::setting::Setting;
use models::shafaq::Shafaq;
use refusals::Refusal;
use schedule::hours::RowNumbers;
use schedule::in_force::{HoursMinutes, Instant};
use schedule::prayer_times::PrayerTimes;
use schedule::rolling::RowSuns;
use unit::Coordinates;

// What an order can set, by its numbers. Only the method's own minutes come from the method.
#[repr(C)]
#[derive(Clone, Copy)]
pub struct ProbeSettings {
    pub method: u32,
    pub madhab: u32,
    pub high_latitude_rule: u32,
    pub rounding: u32,
    pub shafaq: u32,
    pub minutes: TimeAdjustment,
    pub isha_interval: i32,
    pub fajr_angle: f64,
    pub isha_angle: f64,
}

// The rules by their numbers.
#[repr(C)]
#[derive(Clone, Copy)]
pub struct ProbeRules {
    pub carry: u32,
    pub southern: u32,
}

// A refusal's number and place, and times that are 0; or 0, 0 and the times.
#[repr(C)]
#[derive(Clone, Copy)]
pub struct ProbeDay {
    pub refusal: Refusal,
    pub times: PrayerTimes,
}

fn parameters(s: ProbeSettings) -> Parameters
    ensures { result ≡ parameters_from s }
{
    Parameters {
        fajr_angle: s.fajr_angle,
        isha_angle: s.isha_angle,
        isha_interval: s.isha_interval,
        madhab: Madhab::of_number(s.madhab),
        high_latitude_rule: HighLatitudeRule::of_number(s.high_latitude_rule),
        adjustments: s.minutes,
        rounding: Rounding::of_number(s.rounding),
        shafaq: Shafaq::of_number(s.shafaq),
        ..Method::of_number(s.method).parameters()
    }
}

fn rules(r: ProbeRules) -> Rules
    ensures { result ≡ rules_from r }
{
    Rules {
        midnight: Midnight::of_number(r.carry),
        southern: Southern::of_number(r.southern),
    }
}

fn setting(latitude: f64, longitude: f64, settings: ProbeSettings, chosen: ProbeRules) -> Setting
    ensures { result ≡ setting_from latitude longitude settings chosen }
{
    Setting {
        coordinates: Coordinates::new(latitude, longitude),
        parameters: parameters(settings),
        rules: rules(chosen),
    }
}

fn answered(worked: Result<PrayerTimes, Refusal>) -> ProbeDay
    ensures { result ≡ probe_day_of worked }
{
    match worked {
        Ok(times) => ProbeDay {
            refusal: Refusal::none(),
            times,
        },
        Err(refusal) => ProbeDay {
            refusal,
            times: PrayerTimes::NONE,
        },
    }
}

// The day of a date, from the hour numbers. They hold what the longitude gives, so it is not needed.
#[unsafe(no_mangle)]
pub extern "C" fn probe_day(
    numbers: RowNumbers,
    year: u32,
    month: u32,
    day: u32,
    latitude: f64,
    settings: ProbeSettings,
    chosen: ProbeRules,
) -> ProbeDay
    ensures { result ≡ probe_day_of (worked_by numbers (date_of year month day) (setting_from latitude (dec 0 0) settings chosen)) }
{
    answered(PrayerTimes::new(
        numbers,
        Date::new(year, month, day),
        setting(latitude, 0.0, settings, chosen),
    ))
}

// The day of a date at a place.
#[unsafe(no_mangle)]
pub extern "C" fn probe_row(
    year: u32,
    month: u32,
    day: u32,
    latitude: f64,
    longitude: f64,
    settings: ProbeSettings,
    chosen: ProbeRules,
) -> ProbeDay
    ensures { result ≡ probe_day_of (worked_at (date_of year month day) (setting_from latitude longitude settings chosen)) }
{
    let date = Date::new(year, month, day);
    let setting = setting(latitude, longitude, settings, chosen);
    answered(RowSuns::new(date, setting).work(setting))
}

fn number(current: Option<Prayer>) -> u32
    ensures { result ≡ current_number_of current }
{
    match current {
        Some(prayer) => prayer.number(),
        None => 0,
    }
}

// The number of the prayer in force, or 0 if there is none.
#[unsafe(no_mangle)]
pub extern "C" fn probe_current(times: PrayerTimes, seconds: i64, nanoseconds: u32) -> u32
    ensures { result ≡ current_number_of (current_time_of times (instant_of seconds nanoseconds)) }
{
    number(times.current_time(Instant {
        seconds,
        nanoseconds,
    }))
}

// The number of the next prayer, or 0 if none is in force.
#[unsafe(no_mangle)]
pub extern "C" fn probe_next(times: PrayerTimes, seconds: i64, nanoseconds: u32) -> u32
    ensures { result ≡ current_number_of (next_of times (instant_of seconds nanoseconds)) }
{
    number(times.next(Instant {
        seconds,
        nanoseconds,
    }))
}

// The time until the next prayer. If none is in force, `found` is false and the numbers are 0.
#[repr(C)]
#[derive(Clone, Copy)]
pub struct ProbeRemaining {
    pub found: bool,
    pub hours: u32,
    pub minutes: u32,
}

fn hours_minutes(remaining: Option<HoursMinutes>) -> ProbeRemaining
    ensures { result ≡ probe_remaining_of remaining }
{
    match remaining {
        Some(time) => ProbeRemaining {
            found: true,
            hours: time.hours,
            minutes: time.minutes,
        },
        None => ProbeRemaining {
            found: false,
            hours: 0,
            minutes: 0,
        },
    }
}

#[unsafe(no_mangle)]
pub extern "C" fn probe_remaining(
    times: PrayerTimes,
    seconds: i64,
    nanoseconds: u32,
) -> ProbeRemaining
    ensures { result ≡ probe_remaining_of (time_remaining_of times (instant_of seconds nanoseconds)) }
{
    hours_minutes(times.time_remaining(Instant {
        seconds,
        nanoseconds,
    }))
}
