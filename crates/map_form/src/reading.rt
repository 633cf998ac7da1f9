// Reading a coordinate as on the map: whether its parts are allowed, and the f64 that they give.
ghost use Rattle.std.specs.Prelude.{◌≡◌, ◌≤◌, ◌^◌};
ghost use Rattle.map_form.specs.Hundredths.{most_latitude, most_longitude, size_of, signed_hundredths_of, degrees_of, form_fits};

use super::{Coordinate, IN_DEGREE, MapForm};

// The hundredths without the sign. Four parts of 32 bits make less than 2^53 hundredths, so an f64 holds the count exactly.
fn size(form: MapForm) -> u64
    ensures { (result ≡ size_of form) × (result ≤ 2 ^ 53) }
{
    let minutes = u64::from(form.degrees) * 60 + u64::from(form.minutes);
    let seconds = minutes * 60 + u64::from(form.seconds);
    seconds * 100 + u64::from(form.hundredths)
}

// Whether each part is in its limit, and all of them at most the most degrees.
#[tactic(auto, unfolding(crate::specs::Hundredths::form_fits))]
fn fits(form: MapForm, coordinate: Coordinate) -> bool
    ensures { result ≡ form_fits coordinate.most form }
{
    form.sign <= 1
        && form.minutes <= 59
        && form.seconds <= 59
        && form.hundredths <= 99
        && size(form) <= coordinate.most * IN_DEGREE
}

// One function for each coordinate: callers have its tag and not this crate's `Coordinate`.
pub fn latitude_fits(form: MapForm) -> bool
    ensures { result ≡ form_fits most_latitude form }
{
    fits(form, Coordinate::LATITUDE)
}

pub fn longitude_fits(form: MapForm) -> bool
    ensures { result ≡ form_fits most_longitude form }
{
    fits(form, Coordinate::LONGITUDE)
}

// Both numbers are exact as floats, so the division rounds once. A zero is 0.0 with either sign.
pub fn degrees_of(form: MapForm) -> f64
    ensures { result ≡ degrees_of (signed_hundredths_of form) }
{
    let n = size(form);
    let degrees = n as f64 / 360000.0;
    if form.sign == 1 && n > 0 {
        -degrees
    } else {
        degrees
    }
}
