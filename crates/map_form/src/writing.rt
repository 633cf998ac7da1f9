// Writing a coordinate as on the map: the hundredth of a second nearest to an f64. A half goes away from zero.
ghost use Rattle.std.specs.Prelude.{◌≡◌, cond, ◌≤◌};
ghost use Rattle.float64.specs.Words.{is_negative_of};
ghost use Rattle.map_form.specs.Hundredths.{most_latitude, most_longitude, at_most};
ghost use Rattle.map_form.specs.Owed.{sign_for, Owed};
ghost use Rattle.map_form.specs.Written.{map_latitude_tag, map_longitude_tag, parts_of, written_of};

use super::hundredths::nearest;
use super::{Coordinate, MapForm};
use float64::sizes::abs;
use float64::words::is_negative;
use refusals::{OUT_OF_RANGE, Refusal};

// No Result: the call for C returns this struct.
#[repr(C)]
#[derive(Clone, Copy)]
pub struct Written {
    pub refusal: Refusal,
    pub form: MapForm,
}

fn parts(sign: u32, n: u64) -> MapForm
    requires { n ≤ 64800000 }
    ensures { result ≡ parts_of sign n }
{
    MapForm {
        sign,
        degrees: (n / 360000) as u32,
        minutes: (n / 6000 % 60) as u32,
        seconds: (n / 100 % 60) as u32,
        hundredths: (n % 100) as u32,
    }
}

// The form beside a refusal.
const NO_PARTS: MapForm = MapForm {
    sign: 0,
    degrees: 0,
    minutes: 0,
    seconds: 0,
    hundredths: 0,
};

// The sign of x as it is written with n hundredths: 0 for a zero.
#[tactic(auto, using(crate::proofs::Signs::naught, crate::proofs::Signs::some))]
fn sign_of(x: f64, n: u64) -> u32
    ensures { result ≡ sign_for n (cond (is_negative_of x) 1 0) }
{
    u32::from(n != 0 && is_negative(x))
}

// Whether |x| is at most the most degrees. False for a NaN.
fn in_range(x: f64, coordinate: Coordinate) -> bool
    ensures { result ≡ at_most coordinate.most x }
{
    abs(x) <= coordinate.most as f64
}

fn write(x: f64, coordinate: Coordinate) -> Written
    ensures { result ≡ written_of coordinate.tag coordinate.most x }
{
    if in_range(x, coordinate) {
        let n = nearest(x);
        Written {
            refusal: Refusal::none(),
            form: parts(sign_of(x, n), n),
        }
    } else {
        Written {
            refusal: Refusal::new(OUT_OF_RANGE, coordinate.tag),
            form: NO_PARTS,
        }
    }
}

// One function for each coordinate, as C calls them.
pub fn write_latitude(x: f64) -> Written
    ensures value { result ≡ written_of map_latitude_tag most_latitude x }
    ensures owed { Owed map_latitude_tag most_latitude x result }
{
    write(x, Coordinate::LATITUDE)
}

pub fn write_longitude(x: f64) -> Written
    ensures value { result ≡ written_of map_longitude_tag most_longitude x }
    ensures owed { Owed map_longitude_tag most_longitude x result }
{
    write(x, Coordinate::LONGITUDE)
}
