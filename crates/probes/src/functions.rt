// The leaf functions as exports, for benchmarks and for runs against other libraries. A host does not link them.
ghost use Rattle.std.specs.Prelude.{◌≡◌};
ghost use Rattle.std.specs.Float.Ieee.{to_signed, to_unsigned};
ghost use Rattle.float64.specs.Whole.{floor_of, trunc_of, round_of};
ghost use Rattle.fdlibm_root.specs.Root.{sqrt_of};
ghost use Rattle.fdlibm_trig.specs.Trig.{sin_of, cos_of, tan_of};
ghost use Rattle.fdlibm_arc.specs.Atan.{atan_of};
ghost use Rattle.fdlibm_arc.specs.Asin.{asin_of};
ghost use Rattle.fdlibm_arc.specs.Acos.{acos_of};
ghost use Rattle.fdlibm_arc.specs.Atan2.{atan2_of};
ghost use Rattle.calendar.specs.Gregorian.{date_of};
ghost use Rattle.unit.specs.Unit.{angle_of, coordinates_of};
ghost use Rattle.solar.specs.Hours.{hour_numbers_of, angle_number_of, afternoon_number_of};
ghost use Rattle.solar.specs.Shared.{date_course_of};
ghost use Rattle.models.specs.Numbers.{shafaq_of, midnight_of};
ghost use Rattle.ops.specs.Season.{days_since_solstice_of, season_adjusted_morning_twilight_of, season_adjusted_evening_twilight_of};
ghost use Rattle.solar.specs.Times.{solar_hour_of};
ghost use Rattle.probes.specs.Functions.{probe_sun_of, probe_time_of};

use calendar::dates::Date;
use models::numbered::Numbered;
use models::rules::Midnight;
use models::shafaq::Shafaq;
use ops::season::{
    days_since_solstice, season_adjusted_evening_twilight, season_adjusted_morning_twilight,
};
use ops::transit::Course;
use solar::hours::{HourNumbers, afternoon_number, angle_number, date_course, hour_numbers};
use solar::times::solar_hour;
use unit::{Angle, Coordinates};

#[unsafe(no_mangle)]
pub extern "C" fn probe_sqrt(x: f64) -> f64
    ensures { result ≡ sqrt_of x }
{
    fdlibm_root::e_sqrt::sqrt(x)
}

#[unsafe(no_mangle)]
pub extern "C" fn probe_sin(x: f64) -> f64
    ensures { result ≡ sin_of x }
{
    fdlibm_trig::s_sin::sin(x)
}

#[unsafe(no_mangle)]
pub extern "C" fn probe_cos(x: f64) -> f64
    ensures { result ≡ cos_of x }
{
    fdlibm_trig::s_cos::cos(x)
}

#[unsafe(no_mangle)]
pub extern "C" fn probe_tan(x: f64) -> f64
    ensures { result ≡ tan_of x }
{
    fdlibm_trig::s_tan::tan(x)
}

#[unsafe(no_mangle)]
pub extern "C" fn probe_atan(x: f64) -> f64
    ensures { result ≡ atan_of x }
{
    fdlibm_arc::s_atan::atan(x)
}

#[unsafe(no_mangle)]
pub extern "C" fn probe_asin(x: f64) -> f64
    ensures { result ≡ asin_of x }
{
    fdlibm_arc::e_asin::asin(x)
}

#[unsafe(no_mangle)]
pub extern "C" fn probe_acos(x: f64) -> f64
    ensures { result ≡ acos_of x }
{
    fdlibm_arc::e_acos::acos(x)
}

#[unsafe(no_mangle)]
pub extern "C" fn probe_atan2(y: f64, x: f64) -> f64
    ensures { result ≡ atan2_of y x }
{
    fdlibm_arc::e_atan2::atan2(y, x)
}

#[unsafe(no_mangle)]
pub extern "C" fn probe_floor(x: f64) -> f64
    ensures { result ≡ floor_of x }
{
    float64::whole::floor(x)
}

#[unsafe(no_mangle)]
pub extern "C" fn probe_trunc(x: f64) -> f64
    ensures { result ≡ trunc_of x }
{
    float64::whole::trunc(x)
}

#[unsafe(no_mangle)]
pub extern "C" fn probe_round(x: f64) -> f64
    ensures { result ≡ round_of x }
{
    float64::whole::round(x)
}

#[unsafe(no_mangle)]
pub extern "C" fn probe_to_i32(x: f64) -> i32
    ensures { result ≡ to_signed 31 x }
{
    float64::casts::to_i32(x)
}

#[unsafe(no_mangle)]
pub extern "C" fn probe_to_u32(x: f64) -> u32
    ensures { result ≡ to_unsigned 32 x }
{
    float64::casts::to_u32(x)
}

#[unsafe(no_mangle)]
pub extern "C" fn probe_to_i64(x: f64) -> i64
    ensures { result ≡ to_signed 63 x }
{
    float64::casts::to_i64(x)
}

#[unsafe(no_mangle)]
pub extern "C" fn probe_to_u64(x: f64) -> u64
    ensures { result ≡ to_unsigned 64 x }
{
    float64::casts::to_u64(x)
}

fn course(year: u32, month: u32, day: u32, latitude: f64, longitude: f64) -> Course
    ensures { result ≡ date_course_of (date_of year month day) (coordinates_of latitude longitude) }
{
    date_course(
        Date::new(year, month, day),
        Coordinates::new(latitude, longitude),
    )
}

// The hour numbers of a date at a place.
#[unsafe(no_mangle)]
pub extern "C" fn probe_hour_numbers(
    year: u32,
    month: u32,
    day: u32,
    latitude: f64,
    longitude: f64,
) -> HourNumbers
    ensures { result ≡ hour_numbers_of (probe_sun_of year month day latitude longitude) }
{
    hour_numbers(course(year, month, day, latitude, longitude))
}

// The hour number at which the sun is at an angle.
#[unsafe(no_mangle)]
pub extern "C" fn probe_angle_number(
    year: u32,
    month: u32,
    day: u32,
    latitude: f64,
    longitude: f64,
    angle: f64,
    after_transit: bool,
) -> f64
    ensures { result ≡ angle_number_of (probe_sun_of year month day latitude longitude) (angle_of angle) after_transit }
{
    angle_number(
        course(year, month, day, latitude, longitude),
        Angle::new(angle),
        after_transit,
    )
}

// The hour number of Asr.
#[unsafe(no_mangle)]
pub extern "C" fn probe_afternoon_number(
    year: u32,
    month: u32,
    day: u32,
    latitude: f64,
    longitude: f64,
    shadow_length: f64,
) -> f64
    ensures { result ≡ afternoon_number_of (probe_sun_of year month day latitude longitude) shadow_length }
{
    afternoon_number(
        course(year, month, day, latitude, longitude),
        latitude,
        shadow_length,
    )
}

// A time. If there is none, `seconds` is 0.
#[repr(C)]
#[derive(Clone, Copy)]
pub struct ProbeTime {
    pub found: bool,
    pub seconds: i32,
}

fn time(hour: Option<i32>) -> ProbeTime
    ensures { result ≡ probe_time_of hour }
{
    match hour {
        Some(seconds) => ProbeTime {
            found: true,
            seconds,
        },
        None => ProbeTime {
            found: false,
            seconds: 0,
        },
    }
}

// The time of an hour number, in seconds from 0h of its date, by the rule at midnight with the number `carry`. 0 is the source's.
#[unsafe(no_mangle)]
pub extern "C" fn probe_solar_hour(carry: u32, value: f64) -> ProbeTime
    ensures { result ≡ probe_time_of (solar_hour_of (midnight_of carry) value) }
{
    time(solar_hour(Midnight::of_number(carry), value))
}

#[unsafe(no_mangle)]
pub extern "C" fn probe_days_since_solstice(day: u32, year: u32, latitude: f64) -> u32
    ensures { result ≡ days_since_solstice_of day year latitude }
{
    days_since_solstice(day, year, latitude)
}

#[unsafe(no_mangle)]
pub extern "C" fn probe_morning_twilight(latitude: f64, day: u32, year: u32, sunrise: i64) -> i64
    ensures { result ≡ season_adjusted_morning_twilight_of latitude day year sunrise }
{
    season_adjusted_morning_twilight(latitude, day, year, sunrise)
}

// `shafaq` is a number.
#[unsafe(no_mangle)]
pub extern "C" fn probe_evening_twilight(
    latitude: f64,
    day: u32,
    year: u32,
    sunset: i64,
    shafaq: u32,
) -> i64
    ensures { result ≡ season_adjusted_evening_twilight_of latitude day year sunset (shafaq_of shafaq) }
{
    season_adjusted_evening_twilight(latitude, day, year, sunset, Shafaq::of_number(shafaq))
}
