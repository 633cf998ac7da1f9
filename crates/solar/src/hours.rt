// solar.rs: the sun's hour numbers over a place on a day.
ghost use Rattle.std.specs.Prelude.{◌≡◌};
ghost use Rattle.solar.specs.Hours.{solar_altitude, shadow_angle_of};
ghost use Rattle.solar.specs.Shared.{date_course_of, course_sine_number_of, course_angle_number_of, course_numbers_of, course_afternoon_number_of};

use calendar::dates::Date;
use fdlibm_arc::s_atan::atan;
use fdlibm_trig::s_tan::tan;
use float64::sizes::abs;
use julian::day::date_julian_day;
use ops::coordinates::{place, sidereal_time};
use ops::transit::{Course, Observer};
use unit::{Angle, Coordinates};

// The hours of the transit, of sunrise and of sunset, from 0h of the day in universal time: not yet times.
#[repr(C)]
#[derive(Clone, Copy)]
pub struct HourNumbers {
    pub transit: f64,
    pub sunrise: f64,
    pub sunset: f64,
}

// The sine of `solar_altitude`, as `sin` gives it (proofs/AltitudeSine.antt).
const SOLAR_ALTITUDE_SINE: f64 = -0.014543897651582656; // 0xbf8dc930 e628cb24

// The altitude of the sun's center at sunrise and sunset.
#[tactic(auto, unfolding(crate::specs::Hours::solar_altitude, float64::proofs::Floats::dec, float64::proofs::Floats::round, float64::proofs::Floats::of_bits))]
fn solar_altitude() -> Angle
    ensures { result ≡ solar_altitude }
{
    Angle::new(-50.0 / 60.0)
}

// The sun's course over a place on one date alone. Rows that follow one another pass their positions on instead.
pub fn date_course(date: Date, coordinates: Coordinates) -> Course
    ensures { result ≡ date_course_of date coordinates }
{
    let sidereal_time = sidereal_time(date_julian_day(date));
    let previous = place(date.yesterday());
    let today = place(date);
    let next = place(date.tomorrow());
    Course::new(
        Observer::new(coordinates),
        sidereal_time,
        previous,
        today,
        next,
    )
}

// The hour number at which the sun is at an angle whose sine is given.
#[tactic(auto, unfolding(crate::specs::Shared::course_sine_number_of))]
pub fn sine_number(course: Course, sine: f64, angle: Angle, after_transit: bool) -> f64
    ensures { result ≡ course_sine_number_of course sine angle after_transit }
{
    course.hour_number(angle, course.arc_to_sine(sine), after_transit)
}

// The hour number at which the sun is at an angle.
#[tactic(auto, unfolding(crate::specs::Shared::course_angle_number_of))]
pub fn angle_number(course: Course, angle: Angle, after_transit: bool) -> f64
    ensures { result ≡ course_angle_number_of course angle after_transit }
{
    course.hour_number(angle, course.half_arc(angle), after_transit)
}

// Sunrise and sunset are half of one arc before and after the transit, so the arc is computed once.
pub fn hour_numbers(course: Course) -> HourNumbers
    ensures { result ≡ course_numbers_of course }
{
    let altitude = solar_altitude();
    let arc = course.arc_to_sine(SOLAR_ALTITUDE_SINE);
    HourNumbers {
        transit: course.transit_number(),
        sunrise: course.hour_number(altitude, arc, false),
        sunset: course.hour_number(altitude, arc, true),
    }
}

// The angle at which a shadow has grown by `shadow_length` lengths.
#[tactic(auto, unfolding(crate::specs::Hours::shadow_angle_of, float64::specs::Ops::dec))]
fn shadow_angle(latitude: f64, declination: f64, shadow_length: f64) -> Angle
    ensures { result ≡ shadow_angle_of latitude declination shadow_length }
{
    let tangent = Angle::new(abs(latitude - declination));
    let inverse = shadow_length + tan(tangent.radians());
    Angle::from_radians(atan(1.0 / inverse))
}

// The hour number of Asr.
#[tactic(auto, unfolding(crate::specs::Shared::course_afternoon_number_of))]
pub fn afternoon_number(course: Course, latitude: f64, shadow_length: f64) -> f64
    ensures { result ≡ course_afternoon_number_of course latitude shadow_length }
{
    let declination = course.declination;
    let angle = shadow_angle(latitude, declination.value, shadow_length);
    angle_number(course, angle, true)
}
