// unit.rs: angles in degrees and places on the earth. The operators on Angle are functions of the type.
// Dates and times (Stride) are in the crates calendar, julian and whole_minutes.
#![tactic(auto)]

ghost use Rattle.std.specs.Prelude.{◌≡◌};
ghost use Rattle.unit.specs.Unit.{normalized_to_scale_of, angle_of, from_radians_of, radians_of, unwound_of, quadrant_shifted_of, plus_of};
ghost use Rattle.unit.specs.Unit.{minus_of, product_of, over_of, coordinates_of, latitude_angle_of, longitude_angle_of};

use float64::whole::{floor, round};
use std::f64::consts::PI;
use std::ops::{Add, Div, Mul, Sub};

// value less the largest whole multiple of max that is not above it.
#[tactic(auto, unfolding(crate::specs::Unit::normalized_to_scale_of))]
pub fn normalized_to_scale(value: f64, max: f64) -> f64
    ensures { result ≡ normalized_to_scale_of value max }
{
    value - (max * floor(value / max))
}

#[derive(Clone, Copy)]
pub struct Angle {
    pub degrees: f64,
}

impl Angle {
    pub fn new(value: f64) -> Angle
        ensures { result ≡ angle_of value }
    {
        Angle { degrees: value }
    }

    #[tactic(auto, unfolding(float64::specs::Ops::dec, float64::proofs::Floats::round, float64::proofs::Floats::of_bits))]
    pub fn from_radians(value: f64) -> Angle
        ensures { result ≡ from_radians_of value }
    {
        Angle {
            degrees: (value * 180.0) / PI,
        }
    }

    #[tactic(auto, unfolding(float64::specs::Ops::dec, float64::proofs::Floats::round, float64::proofs::Floats::of_bits))]
    pub fn radians(self) -> f64
        ensures { result ≡ radians_of self }
    {
        (self.degrees * PI) / 180.0
    }

    // The angle from 0 to 360 degrees. An angle above 0 and below 359 is returned as it is, which saves a division.
    pub fn unwound(self) -> Angle
        ensures { result ≡ unwound_of self }
    {
        let degrees = self.degrees;
        if 0.0 < degrees && degrees < 359.0 {
            return self;
        }
        Angle {
            degrees: normalized_to_scale(degrees, 360.0),
        }
    }

    // The angle from -180 to 180 degrees.
    pub fn quadrant_shifted(self) -> Angle
        ensures { result ≡ quadrant_shifted_of self }
    {
        let degrees = self.degrees;
        if degrees >= -180.0 && degrees <= 180.0 {
            self
        } else {
            Angle {
                degrees: degrees - (360.0 * round(degrees / 360.0)),
            }
        }
    }
}

impl Add for Angle {
    type Output = Angle;

    ghost add_gives = { λ a b r. r ≡ plus_of a b };

    fn add(self, rhs: Angle) -> Angle {
        Angle {
            degrees: self.degrees + rhs.degrees,
        }
    }
}

impl Sub for Angle {
    type Output = Angle;

    ghost sub_gives = { λ a b r. r ≡ minus_of a b };

    fn sub(self, rhs: Angle) -> Angle {
        Angle {
            degrees: self.degrees - rhs.degrees,
        }
    }
}

impl Mul for Angle {
    type Output = Angle;

    ghost mul_gives = { λ a b r. r ≡ product_of a b };

    fn mul(self, rhs: Angle) -> Angle {
        Angle {
            degrees: self.degrees * rhs.degrees,
        }
    }
}

impl Div for Angle {
    type Output = Angle;

    ghost div_gives = { λ a b r. r ≡ over_of a b };

    // The source's operator panics if rhs is zero. The source divides only by 360 and -360.
    fn div(self, rhs: Angle) -> Angle {
        Angle {
            degrees: self.degrees / rhs.degrees,
        }
    }
}

// Latitude and longitude, in degrees.
#[repr(C)]
#[derive(Clone, Copy)]
pub struct Coordinates {
    pub latitude: f64,
    pub longitude: f64,
}

impl Coordinates {
    pub fn new(latitude: f64, longitude: f64) -> Coordinates
        ensures { result ≡ coordinates_of latitude longitude }
    {
        Coordinates {
            latitude,
            longitude,
        }
    }

    pub fn latitude_angle(self) -> Angle
        ensures { result ≡ latitude_angle_of self }
    {
        Angle::new(self.latitude)
    }

    pub fn longitude_angle(self) -> Angle
        ensures { result ≡ longitude_angle_of self }
    {
        Angle::new(self.longitude)
    }
}
