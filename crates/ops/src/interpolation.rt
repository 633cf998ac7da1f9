// ops.rs: interpolation between three equidistant values, by Meeus, Astronomical Algorithms, page 24.
#![tactic(auto, unfolding(
// A literal of the code is the decimal of the formula.
float64::proofs::Floats::dec, float64::proofs::Floats::round, float64::proofs::Floats::of_bits,
// Interpolation of numbers and of angles.
crate::specs::Shared::interpolated_of, crate::specs::Transit::interpolate_of, crate::specs::Transit::interpolate_angles_of,))]

ghost use Rattle.std.specs.Prelude.{◌≡◌};
ghost use Rattle.ops.specs.Transit.{interpolate_of, interpolate_angles_of};
ghost use Rattle.ops.specs.Shared.{differences_of, angle_differences_of, interpolated_of};

use unit::Angle;

// A value and the differences to its equidistant neighbours: a + b and c.
#[derive(Clone, Copy)]
pub struct Interpolation {
    pub value: f64,
    pub sum: f64,
    pub change: f64,
}

impl Interpolation {
    pub fn new(value: f64, previous_value: f64, next_value: f64) -> Interpolation
        ensures { result ≡ differences_of value previous_value next_value }
    {
        let a = value - previous_value;
        let b = next_value - value;
        Interpolation {
            value,
            sum: a + b,
            change: b - a,
        }
    }

    // Of angles, whose differences are unwound. One function for both would need a trait that is longer than the line in which they differ.
    pub fn of_angles(value: Angle, previous_value: Angle, next_value: Angle) -> Interpolation
        ensures { result ≡ angle_differences_of value previous_value next_value }
    {
        let a = (value - previous_value).unwound();
        let b = (next_value - value).unwound();
        Interpolation {
            value: value.degrees,
            sum: a.degrees + b.degrees,
            change: b.degrees - a.degrees,
        }
    }

    // The value at `factor` of the way to the next.
    pub fn at(self, factor: f64) -> f64
        ensures { result ≡ interpolated_of self factor }
    {
        self.value + ((factor / 2.0) * (self.sum + (factor * self.change)))
    }
}

// Interpolation of a value given equidistant previous and next values.
pub fn interpolate(value: f64, previous_value: f64, next_value: f64, factor: f64) -> f64
    ensures { result ≡ interpolate_of value previous_value next_value factor }
{
    Interpolation::new(value, previous_value, next_value).at(factor)
}

// Interpolation of three angles, accounting for angle unwinding.
pub fn interpolate_angles(
    value: Angle,
    previous_value: Angle,
    next_value: Angle,
    factor: f64,
) -> Angle
    ensures { result ≡ interpolate_angles_of value previous_value next_value factor }
{
    Angle::new(Interpolation::of_angles(value, previous_value, next_value).at(factor))
}
