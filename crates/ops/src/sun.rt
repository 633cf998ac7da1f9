// ops.rs: where the sun is, by the formulas of Meeus, Astronomical Algorithms.
#![tactic(auto, unfolding(
// A literal of the code is the decimal of the formula.
float64::proofs::Floats::dec, float64::proofs::Floats::round, float64::proofs::Floats::of_bits,
// Mean places.
crate::specs::Sun::julian_century_of, crate::specs::Sun::mean_solar_longitude_of, crate::specs::Sun::mean_lunar_longitude_of,
// The moon's node, twice.
crate::specs::Sun::ascending_lunar_node_longitude_of, crate::specs::Sun::omega_of,
// The sun's ellipse.
crate::specs::Sun::mean_solar_anomaly_of, crate::specs::Sun::solar_equation_of_the_center_of,
// Apparent places.
crate::specs::Sun::apparent_solar_longitude_of, crate::specs::Sun::apparent_obliquity_of_the_ecliptic_of,
// The ecliptic and the vernal equinox.
crate::specs::Sun::mean_obliquity_of_the_ecliptic_of, crate::specs::Sun::mean_sidereal_time_of,
// Nutation.
crate::specs::Sun::nutation_in_longitude_of, crate::specs::Sun::nutation_in_obliquity_of,))]

ghost use Rattle.std.specs.Prelude.{◌≡◌};
ghost use Rattle.ops.specs.Sun.{square, cube, julian_century_of, mean_solar_longitude_of, mean_lunar_longitude_of};
ghost use Rattle.ops.specs.Sun.{ascending_lunar_node_longitude_of, mean_solar_anomaly_of, solar_equation_of_the_center_of, omega_of};
ghost use Rattle.ops.specs.Sun.{apparent_solar_longitude_of, mean_obliquity_of_the_ecliptic_of, apparent_obliquity_of_the_ecliptic_of};
ghost use Rattle.ops.specs.Sun.{mean_sidereal_time_of, nutation_in_longitude_of, nutation_in_obliquity_of};
ghost use Rattle.ops.specs.Shared.{nutations_of, apparent_position_of};
ghost use Rattle.fdlibm_trig.specs.Trig.{sin_of, cos_of};
ghost use Rattle.unit.specs.Unit.{radians_of};

use fdlibm_trig::s_cos::cos;
use fdlibm_trig::s_sin::sin;
use fdlibm_trig::s_sincos::sincos;
use unit::Angle;

// powf(2.0). `powi` is a loop, so it costs more, and the definitions of specs/Sun have the products.
fn squared(x: f64) -> f64
    ensures { result ≡ square x }
{
    x * x
}

// powf(3.0), by two multiplications.
fn cubed(x: f64) -> f64
    ensures { result ≡ cube x }
{
    x * x * x
}

// Julian century from the epoch.
pub fn julian_century(julian_day: f64) -> f64
    ensures { result ≡ julian_century_of julian_day }
{
    (julian_day - 2451545.0) / 36525.0
}

// The geometric mean longitude of the sun.
pub fn mean_solar_longitude(julian_century: f64) -> Angle
    ensures { result ≡ mean_solar_longitude_of julian_century }
{
    let term1 = 280.4664567;
    let term2 = 36000.76983 * julian_century;
    let term3 = 0.0003032 * squared(julian_century);
    Angle::new(term1 + term2 + term3).unwound()
}

// The geometric mean longitude of the moon.
pub fn mean_lunar_longitude(julian_century: f64) -> Angle
    ensures { result ≡ mean_lunar_longitude_of julian_century }
{
    let term1 = 218.3165;
    let term2 = 481267.8813 * julian_century;
    Angle::new(term1 + term2).unwound()
}

pub fn ascending_lunar_node_longitude(julian_century: f64) -> Angle
    ensures { result ≡ ascending_lunar_node_longitude_of julian_century }
{
    let term1 = 125.04452;
    let term2 = 1934.136261 * julian_century;
    let term3 = 0.0020708 * squared(julian_century);
    let term4 = cubed(julian_century) / 450000.0;
    Angle::new(term1 - term2 + term3 + term4).unwound()
}

// The mean anomaly of the sun.
pub fn mean_solar_anomaly(julian_century: f64) -> Angle
    ensures { result ≡ mean_solar_anomaly_of julian_century }
{
    let term1 = 357.52911;
    let term2 = 35999.05029 * julian_century;
    let term3 = 0.0001537 * squared(julian_century);
    Angle::new(term1 + term2 - term3).unwound()
}

// The sun's equation of the center.
pub fn solar_equation_of_the_center(julian_century: f64, mean_anomaly: Angle) -> Angle
    ensures { result ≡ solar_equation_of_the_center_of julian_century mean_anomaly }
{
    let mean_radians = mean_anomaly.radians();
    let term1 = (1.914602 - (0.004817 * julian_century) - (0.000014 * squared(julian_century)))
        * sin(mean_radians);
    let term2 = (0.019993 - (0.000101 * julian_century)) * sin(2.0 * mean_radians);
    let term3 = 0.000289 * sin(3.0 * mean_radians);
    Angle::new(term1 + term2 + term3)
}

// The moon's ascending node, as the two corrections below take it.
fn omega(julian_century: f64) -> Angle
    ensures { result ≡ omega_of julian_century }
{
    Angle::new(125.04 - (1934.136 * julian_century))
}

// The sun's true longitude, corrected by the sine of the moon's ascending node.
fn corrected_longitude(julian_century: f64, mean_longitude: Angle, node: f64) -> Angle
    requires { node ≡ sin_of (radians_of (omega_of julian_century)) }
    ensures { result ≡ apparent_solar_longitude_of julian_century mean_longitude }
{
    let anomaly = mean_solar_anomaly(julian_century);
    let longitude = mean_longitude + solar_equation_of_the_center(julian_century, anomaly);
    Angle::new(longitude.degrees - 0.00569 - (0.00478 * node)).unwound()
}

// The apparent longitude of the sun, referred to the true equinox of the date.
pub fn apparent_solar_longitude(julian_century: f64, mean_longitude: Angle) -> Angle
    ensures { result ≡ apparent_solar_longitude_of julian_century mean_longitude }
{
    let node = sin(omega(julian_century).radians());
    corrected_longitude(julian_century, mean_longitude, node)
}

// The mean obliquity of the ecliptic, as adopted by the International Astronomical Union.
pub fn mean_obliquity_of_the_ecliptic(julian_century: f64) -> Angle
    ensures { result ≡ mean_obliquity_of_the_ecliptic_of julian_century }
{
    let term1 = 23.439291;
    let term2 = 0.013004167 * julian_century;
    let term3 = 0.0000001639 * squared(julian_century);
    let term4 = 0.0000005036 * cubed(julian_century);
    Angle::new(term1 - term2 - term3 + term4)
}

// The mean obliquity, corrected by the cosine of the moon's ascending node.
fn corrected_obliquity(julian_century: f64, mean_obliquity: Angle, node: f64) -> Angle
    requires { node ≡ cos_of (radians_of (omega_of julian_century)) }
    ensures { result ≡ apparent_obliquity_of_the_ecliptic_of julian_century mean_obliquity }
{
    Angle::new(mean_obliquity.degrees + (0.00256 * node))
}

// The mean obliquity, corrected for the apparent position of the sun.
pub fn apparent_obliquity_of_the_ecliptic(
    julian_century: f64,
    mean_obliquity_of_the_ecliptic: Angle,
) -> Angle
    ensures { result ≡ apparent_obliquity_of_the_ecliptic_of julian_century mean_obliquity_of_the_ecliptic }
{
    let node = cos(omega(julian_century).radians());
    corrected_obliquity(julian_century, mean_obliquity_of_the_ecliptic, node)
}

#[derive(Clone, Copy)]
pub struct Apparent {
    pub longitude: Angle,
    pub obliquity: Angle,
}

// The apparent longitude and obliquity together (added): one angle's sine and cosine correct them.
pub fn apparent_position(
    julian_century: f64,
    mean_longitude: Angle,
    mean_obliquity: Angle,
) -> Apparent
    ensures { result ≡ apparent_position_of julian_century mean_longitude mean_obliquity }
{
    let node = sincos(omega(julian_century).radians());
    Apparent {
        longitude: corrected_longitude(julian_century, mean_longitude, node.sin),
        obliquity: corrected_obliquity(julian_century, mean_obliquity, node.cos),
    }
}

// Mean sidereal time, the hour angle of the vernal equinox.
pub fn mean_sidereal_time(julian_century: f64) -> Angle
    ensures { result ≡ mean_sidereal_time_of julian_century }
{
    let julian_day = (julian_century * 36525.0) + 2451545.0;
    let term1 = 280.46061837;
    let term2 = 360.98564736629 * (julian_day - 2451545.0);
    let term3 = 0.000387933 * squared(julian_century);
    let term4 = cubed(julian_century) / 38710000.0;
    Angle::new(term1 + term2 + term3 - term4).unwound()
}

// In degrees.
#[derive(Clone, Copy)]
pub struct Nutation {
    pub longitude: f64,
    pub obliquity: f64,
}

// In longitude by the sines of four angles and in obliquity by their cosines (added): worked together.
pub fn nutations(solar_longitude: Angle, lunar_longitude: Angle, ascending_node: Angle) -> Nutation
    ensures { result ≡ nutations_of solar_longitude lunar_longitude ascending_node }
{
    let node = ascending_node.radians();
    let first = sincos(node);
    let second = sincos(2.0 * solar_longitude.radians());
    let third = sincos(2.0 * lunar_longitude.radians());
    let fourth = sincos(2.0 * node);
    let longitude = (-17.2 / 3600.0) * first.sin
        - (1.32 / 3600.0) * second.sin
        - (0.23 / 3600.0) * third.sin
        + (0.21 / 3600.0) * fourth.sin;
    let obliquity = (9.2 / 3600.0) * first.cos
        + (0.57 / 3600.0) * second.cos
        + (0.10 / 3600.0) * third.cos
        - (0.09 / 3600.0) * fourth.cos;
    Nutation {
        longitude,
        obliquity,
    }
}

pub fn nutation_in_longitude(
    solar_longitude: Angle,
    lunar_longitude: Angle,
    ascending_node: Angle,
) -> f64
    ensures { result ≡ nutation_in_longitude_of solar_longitude lunar_longitude ascending_node }
{
    nutations(solar_longitude, lunar_longitude, ascending_node).longitude
}

pub fn nutation_in_obliquity(
    solar_longitude: Angle,
    lunar_longitude: Angle,
    ascending_node: Angle,
) -> f64
    ensures { result ≡ nutation_in_obliquity_of solar_longitude lunar_longitude ascending_node }
{
    nutations(solar_longitude, lunar_longitude, ascending_node).obliquity
}
