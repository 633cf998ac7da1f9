// solar.rs: the times of the sun on a day, each in seconds from 0h of its date. If the source's SolarTime::new would panic, the day lacks a
// time, and the result says which.
ghost use Rattle.std.specs.Prelude.{◌≡◌};
ghost use Rattle.solar.specs.Hours.{sun_on};
ghost use Rattle.solar.specs.Times.{missing_number_of, solar_hour_of, day_of, solar_time_of, time_for_solar_angle_of, afternoon_of};

use super::hours::{HourNumbers, afternoon_number, angle_number, date_course};
use super::past_midnight::carried_hour;
use super::setting::setting_hour;
use calendar::dates::Date;
use models::rules::Midnight;
use refusals::{NO_SUNRISE, NO_SUNSET, NO_TRANSIT};
use unit::{Angle, Coordinates};

// The time of an hour number by a rule, if it has one. Only this function looks at the rule.
#[tactic(auto, unfolding(crate::specs::Times::solar_hour_of))]
pub fn solar_hour(rule: Midnight, number: f64) -> Option<i32>
    ensures { result ≡ solar_hour_of rule number }
{
    match rule {
        Midnight::Stops => setting_hour(number),
        Midnight::Carries => carried_hour(number),
    }
}

#[derive(Clone, Copy)]
pub struct SolarTime {
    pub transit: i32,
    pub sunrise: i32,
    pub sunset: i32,
}

// The time that a day lacks.
#[derive(Clone, Copy)]
pub enum Missing {
    Transit,
    Sunrise,
    Sunset,
}

impl Missing {
    // The number of its refusal.
    pub fn number(self) -> u32
        ensures { result ≡ missing_number_of self }
    {
        match self {
            Missing::Transit => NO_TRANSIT,
            Missing::Sunrise => NO_SUNRISE,
            Missing::Sunset => NO_SUNSET,
        }
    }
}

// The three times, or the first that is missing.
#[tactic(auto, unfolding(crate::specs::Times::day_of))]
fn day(
    transit: Option<i32>,
    sunrise: Option<i32>,
    sunset: Option<i32>,
) -> Result<SolarTime, Missing>
    ensures { result ≡ day_of transit sunrise sunset }
{
    Ok(SolarTime {
        transit: transit.ok_or(Missing::Transit)?,
        sunrise: sunrise.ok_or(Missing::Sunrise)?,
        sunset: sunset.ok_or(Missing::Sunset)?,
    })
}

impl SolarTime {
    #[tactic(auto, unfolding(crate::specs::Times::solar_time_of))]
    pub fn new(rule: Midnight, numbers: HourNumbers) -> Result<SolarTime, Missing>
        ensures { result ≡ solar_time_of rule numbers }
    {
        day(
            solar_hour(rule, numbers.transit),
            solar_hour(rule, numbers.sunrise),
            solar_hour(rule, numbers.sunset),
        )
    }
}

// The time at which the sun is at an angle, on a date over a place.
pub fn time_for_solar_angle(
    rule: Midnight,
    date: Date,
    coordinates: Coordinates,
    angle: Angle,
    after_transit: bool,
) -> Option<i32>
    ensures { result ≡ time_for_solar_angle_of rule (sun_on coordinates date) angle after_transit }
{
    let course = date_course(date, coordinates);
    solar_hour(rule, angle_number(course, angle, after_transit))
}

// Asr's time.
pub fn afternoon(
    rule: Midnight,
    date: Date,
    coordinates: Coordinates,
    shadow_length: f64,
) -> Option<i32>
    ensures { result ≡ afternoon_of rule (sun_on coordinates date) shadow_length }
{
    let course = date_course(date, coordinates);
    solar_hour(
        rule,
        afternoon_number(course, coordinates.latitude, shadow_length),
    )
}
