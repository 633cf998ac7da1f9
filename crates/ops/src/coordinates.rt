// solar.rs: the sun's position at 0h of a day. It is in this crate since a course is made from three positions.
#![tactic(auto, unfolding(
// A literal of the code is the decimal of the formula.
float64::proofs::Floats::dec, float64::proofs::Floats::round, float64::proofs::Floats::of_bits,
// The place.
crate::specs::Coordinates::declination_of, crate::specs::Coordinates::right_ascension_of, crate::specs::Shared::mean_place_of,
// The sidereal time.
crate::specs::Coordinates::apparent_sidereal_time_of, crate::specs::Shared::mean_sidereal_of,))]

ghost use Rattle.std.specs.Prelude.{◌≡◌};
ghost use Rattle.ops.specs.Coordinates.{apparent_sidereal_time_of, solar_coordinates_of, position_of};
ghost use Rattle.ops.specs.Shared.{equatorial_of, place_of, sidereal_time_of, mean_elements_of, mean_place_of, mean_sidereal_of};

use super::sun::{
    apparent_position, ascending_lunar_node_longitude, julian_century, mean_lunar_longitude,
    mean_obliquity_of_the_ecliptic, mean_sidereal_time, mean_solar_longitude, nutations,
};
use calendar::dates::Date;
use fdlibm_arc::e_asin::asin;
use fdlibm_arc::e_atan2::atan2;
use fdlibm_trig::s_cos::cos;
use fdlibm_trig::s_sincos::sincos;
use julian::day::date_julian_day;
use unit::Angle;

#[derive(Clone, Copy)]
pub struct SolarCoordinates {
    // The angle between the rays of the sun and the plane of the equator.
    pub declination: Angle,
    // The angular distance on the celestial equator from the vernal equinox to the hour circle.
    pub right_ascension: Angle,
    // The hour angle of the vernal equinox.
    pub apparent_sidereal_time: Angle,
}

// The position without the sidereal time: all that a course takes of the days beside its own.
#[derive(Clone, Copy)]
pub struct Equatorial {
    pub declination: Angle,
    pub right_ascension: Angle,
}

// The position on the celestial sphere, from the apparent obliquity and longitude in radians.
fn on_the_sphere(obliquity: f64, longitude: f64) -> Equatorial
    ensures { result ≡ equatorial_of obliquity longitude }
{
    let tilt = sincos(obliquity);
    let along = sincos(longitude);
    let declination = Angle::from_radians(asin(tilt.sin * along.sin));
    let right_ascension = Angle::from_radians(atan2(tilt.cos * along.sin, along.cos));
    Equatorial {
        declination,
        right_ascension: right_ascension.unwound(),
    }
}

fn apparent_sidereal_time(
    julian_century: f64,
    mean_solar_longitude: Angle,
    mean_obliquity: Angle,
) -> Angle
    ensures { result ≡ apparent_sidereal_time_of julian_century mean_solar_longitude mean_obliquity }
{
    let lunar = mean_lunar_longitude(julian_century);
    let node = ascending_lunar_node_longitude(julian_century);
    let nutation = nutations(mean_solar_longitude, lunar, node);
    let cosine = cos(Angle::new(mean_obliquity.degrees + nutation.obliquity).radians());
    let sidereal = mean_sidereal_time(julian_century);
    Angle::new(sidereal.degrees + ((nutation.longitude * 3600.0) * cosine) / 3600.0)
}

// What the position and the sidereal time of a day both begin with.
#[derive(Clone, Copy)]
pub struct MeanElements {
    pub century: f64,
    pub longitude: Angle,
    pub obliquity: Angle,
}

impl MeanElements {
    pub fn new(julian_day: f64) -> MeanElements
        ensures { result ≡ mean_elements_of julian_day }
    {
        let century = julian_century(julian_day);
        MeanElements {
            century,
            longitude: mean_solar_longitude(century),
            obliquity: mean_obliquity_of_the_ecliptic(century),
        }
    }

    pub fn place(self) -> Equatorial
        ensures { result ≡ mean_place_of self }
    {
        let apparent = apparent_position(self.century, self.longitude, self.obliquity);
        on_the_sphere(apparent.obliquity.radians(), apparent.longitude.radians())
    }

    // The apparent sidereal time.
    pub fn sidereal_time(self) -> Angle
        ensures { result ≡ mean_sidereal_of self }
    {
        apparent_sidereal_time(self.century, self.longitude, self.obliquity)
    }
}

impl Equatorial {
    #[tactic(auto, using(crate::proofs::SharedLaws::mean_place))]
    pub fn new(julian_day: f64) -> Equatorial
        ensures { result ≡ place_of (solar_coordinates_of julian_day) }
    {
        MeanElements::new(julian_day).place()
    }
}

// The apparent sidereal time of a Julian Day.
#[tactic(auto, using(crate::proofs::SharedLaws::mean_sidereal))]
pub fn sidereal_time(julian_day: f64) -> Angle
    ensures { result ≡ sidereal_time_of (solar_coordinates_of julian_day) }
{
    MeanElements::new(julian_day).sidereal_time()
}

impl SolarCoordinates {
    #[tactic(auto, using(crate::proofs::SharedLaws::mean_place, crate::proofs::SharedLaws::mean_sidereal))]
    pub fn new(julian_day: f64) -> SolarCoordinates
        ensures { result ≡ solar_coordinates_of julian_day }
    {
        let mean = MeanElements::new(julian_day);
        let place = mean.place();
        SolarCoordinates {
            declination: place.declination,
            right_ascension: place.right_ascension,
            apparent_sidereal_time: mean.sidereal_time(),
        }
    }
}

// The sun's position at 0h of a date, without the sidereal time.
pub fn place(date: Date) -> Equatorial
    ensures { result ≡ place_of (position_of date) }
{
    Equatorial::new(date_julian_day(date))
}
