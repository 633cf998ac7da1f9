// ops.rs: when the sun crosses the meridian and when it is at a given altitude, by Meeus, Astronomical Algorithms.
// What several hour numbers of a day share is worked once: the sine and cosine of the latitude (Observer), the differences
// of the interpolations and the products of the sines and of the cosines (Course).
#![tactic(auto, unfolding(
// A literal of the code is the decimal of the formula.
float64::proofs::Floats::dec, float64::proofs::Floats::round, float64::proofs::Floats::of_bits,
// Altitude, and the longitude counted to the west.
crate::specs::Transit::altitude_of_celestial_body_of, crate::specs::Transit::west_of,
// The approximate transit.
crate::specs::Shared::transit_from_of, crate::specs::Transit::approximate_transit_of,
// The transit.
crate::specs::Transit::corrected_transit_of, crate::specs::Shared::course_transit_number_of,
// The hour angle.
crate::specs::Shared::hour_angle_of, crate::specs::Transit::hour_angle_at_of,
// An arc.
crate::specs::Shared::arc_to_sine_of, crate::specs::Shared::half_arc_of,
// The hour number that it gives.
crate::specs::Shared::hour_number_of, crate::specs::Shared::moved_transit_of,))]

ghost use Rattle.std.specs.Prelude.{◌≡◌};
ghost use Rattle.ops.specs.Transit.{altitude_of_celestial_body_of, west_of, approximate_transit_of, corrected_transit_of};
ghost use Rattle.ops.specs.Transit.{corrected_hour_angle_of};
ghost use Rattle.ops.specs.Shared.{observer_of, transit_from_of, course_through_of, course_of, hour_angle_of, moved_transit_of};
ghost use Rattle.ops.specs.Shared.{course_transit_number_of, arc_to_sine_of, half_arc_of, hour_number_of};

use super::coordinates::Equatorial;
use super::interpolation::{Interpolation, interpolate_angles};
use fdlibm_arc::e_acos::acos;
use fdlibm_arc::e_asin::asin;
use fdlibm_trig::s_cos::cos;
use fdlibm_trig::s_sin::sin;
use fdlibm_trig::s_sincos::sincos;
use unit::{Angle, Coordinates, normalized_to_scale};

pub fn altitude_of_celestial_body(
    observer_latitude: Angle,
    declination: Angle,
    local_hour_angle: Angle,
) -> Angle
    ensures { result ≡ altitude_of_celestial_body_of observer_latitude declination local_hour_angle }
{
    let latitude = observer_latitude.radians();
    let inclination = declination.radians();
    let term1 = sin(latitude) * sin(inclination);
    let term2 = cos(latitude) * cos(inclination) * cos(local_hour_angle.radians());
    Angle::from_radians(asin(term1 + term2))
}

// The longitude counted to the west.
fn west(longitude: Angle) -> Angle
    ensures { result ≡ west_of longitude }
{
    longitude * Angle::new(-1.0)
}

// The approximate transit from the longitude counted to the west.
fn transit_from(west: Angle, sidereal_time: Angle, right_ascension: Angle) -> f64
    ensures { result ≡ transit_from_of west sidereal_time right_ascension }
{
    let angle = right_ascension + west - sidereal_time;
    normalized_to_scale((angle / Angle::new(360.0)).degrees, 1.0)
}

pub fn approximate_transit(longitude: Angle, sidereal_time: Angle, right_ascension: Angle) -> f64
    ensures { result ≡ approximate_transit_of longitude sidereal_time right_ascension }
{
    transit_from(west(longitude), sidereal_time, right_ascension)
}

// A place, with what its latitude brings.
#[derive(Clone, Copy)]
pub struct Observer {
    pub west: Angle,
    pub sine: f64,
    pub cosine: f64,
}

impl Observer {
    pub fn new(coordinates: Coordinates) -> Observer
        ensures { result ≡ observer_of coordinates }
    {
        let latitude = sincos(coordinates.latitude_angle().radians());
        Observer {
            west: west(coordinates.longitude_angle()),
            sine: latitude.sin,
            cosine: latitude.cos,
        }
    }
}

// The sun's course over a place on a day.
#[derive(Clone, Copy)]
pub struct Course {
    pub observer: Observer,
    pub transit: f64,
    pub sidereal_time: Angle,
    pub right_ascension: Interpolation,
    pub declination: Interpolation,
    pub sines: f64,
    pub cosines: f64,
}

impl Course {
    // With a given transit.
    fn through(
        transit: f64,
        observer: Observer,
        sidereal_time: Angle,
        previous: Equatorial,
        today: Equatorial,
        next: Equatorial,
    ) -> Course
        ensures { result ≡ course_through_of transit observer sidereal_time previous today next }
    {
        let inclination = sincos(today.declination.radians());
        Course {
            observer,
            transit,
            sidereal_time,
            right_ascension: Interpolation::of_angles(
                today.right_ascension,
                previous.right_ascension,
                next.right_ascension,
            ),
            declination: Interpolation::new(
                today.declination.degrees,
                previous.declination.degrees,
                next.declination.degrees,
            ),
            sines: observer.sine * inclination.sin,
            cosines: observer.cosine * inclination.cos,
        }
    }

    // From the day's sidereal time, and the sun's position on the day before, on the day and on the day after.
    pub fn new(
        observer: Observer,
        sidereal_time: Angle,
        previous: Equatorial,
        today: Equatorial,
        next: Equatorial,
    ) -> Course
        ensures { result ≡ course_of observer sidereal_time previous today next }
    {
        let transit = transit_from(observer.west, sidereal_time, today.right_ascension);
        Course::through(transit, observer, sidereal_time, previous, today, next)
    }

    // The sun's hour angle at a fraction of the day.
    fn hour_angle(self, at: f64) -> Angle
        ensures { result ≡ hour_angle_of self at }
    {
        let plane_angle = Angle::new(self.sidereal_time.degrees + (360.985647 * at)).unwound();
        let interpolated_angles = Angle::new(self.right_ascension.at(at)).unwound();
        plane_angle - self.observer.west - interpolated_angles
    }

    // The hour number of the transit.
    pub fn transit_number(self) -> f64
        ensures { result ≡ course_transit_number_of self }
    {
        let transit = self.transit;
        let angles = self.hour_angle(transit).quadrant_shifted();
        let angle_delta = angles / Angle::new(-360.0);
        (transit + angle_delta.degrees) * 24.0
    }

    // How much of a turn lies between the transit and an altitude, in degrees, from the altitude's sine: one that several days share is
    // worked once.
    pub fn arc_to_sine(self, sine: f64) -> f64
        ensures { result ≡ arc_to_sine_of self sine }
    {
        Angle::from_radians(acos((sine - self.sines) / self.cosines)).degrees
    }

    // The same from the altitude.
    pub fn half_arc(self, angle: Angle) -> f64
        ensures { result ≡ half_arc_of self angle }
    {
        self.arc_to_sine(sin(angle.radians()))
    }

    // The hour number at which the sun is at the altitude, from its half arc.
    pub fn hour_number(self, angle: Angle, arc: f64, after_transit: bool) -> f64
        ensures { result ≡ hour_number_of self angle arc after_transit }
    {
        let at = moved_transit(self.transit, arc, after_transit);
        let observer = self.observer;
        let hour = sincos(self.hour_angle(at).radians());
        let declination = sincos(Angle::new(self.declination.at(at)).radians());
        let term1 = observer.sine * declination.sin;
        let term2 = observer.cosine * declination.cos * hour.cos;
        let term3 = (Angle::from_radians(asin(term1 + term2)) - angle).degrees;
        let term4 = 360.0 * declination.cos * observer.cosine * hour.sin;
        (at + term3 / term4) * 24.0
    }
}

// The transit moved by an arc, to the evening or to the morning.
fn moved_transit(transit: f64, arc: f64, after_transit: bool) -> f64
    ensures { result ≡ moved_transit_of transit arc after_transit }
{
    if after_transit {
        transit + (arc / 360.0)
    } else {
        transit - (arc / 360.0)
    }
}

// The hour number at which the sun is at its highest point (in universal time).
pub fn corrected_transit(
    approximate_transit: f64,
    longitude: Angle,
    sidereal_time: Angle,
    right_ascension: Angle,
    previous_right_ascension: Angle,
    next_right_ascension: Angle,
) -> f64
    ensures { result ≡ corrected_transit_of approximate_transit longitude sidereal_time right_ascension previous_right_ascension
        next_right_ascension }
{
    let plane_angle = Angle::new(
        sidereal_time.degrees + (360.985647 * approximate_transit),
    ).unwound();
    let interpolated_angles = interpolate_angles(
        right_ascension,
        previous_right_ascension,
        next_right_ascension,
        approximate_transit,
    )
    .unwound();
    let angles = (plane_angle - west(longitude) - interpolated_angles).quadrant_shifted();
    let angle_delta = angles / Angle::new(-360.0);
    (approximate_transit + angle_delta.degrees) * 24.0
}

// The source's own signature: `corrected_hour_angle_of` has the eleven values one by one.
pub fn corrected_hour_angle(
    approximate_transit: f64,
    angle: Angle,
    coordinates: Coordinates,
    after_transit: bool,
    sidereal_time: Angle,
    right_ascension: Angle,
    previous_right_ascension: Angle,
    next_right_ascension: Angle,
    declination: Angle,
    previous_declination: Angle,
    next_declination: Angle,
) -> f64
    ensures { result ≡ corrected_hour_angle_of approximate_transit angle coordinates after_transit sidereal_time right_ascension
        previous_right_ascension next_right_ascension declination previous_declination next_declination }
{
    let previous = Equatorial {
        declination: previous_declination,
        right_ascension: previous_right_ascension,
    };
    let today = Equatorial {
        declination,
        right_ascension,
    };
    let next = Equatorial {
        declination: next_declination,
        right_ascension: next_right_ascension,
    };
    let observer = Observer::new(coordinates);
    let course = Course::through(
        approximate_transit,
        observer,
        sidereal_time,
        previous,
        today,
        next,
    );
    course.hour_number(angle, course.half_arc(angle), after_transit)
}
