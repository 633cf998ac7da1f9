// e_acos.c: the arccosine. It is π/2 - asin x for an x below 1/2 in size,
// π - 2 asin (sqrt ((1 + x) / 2)) for an x up to -1/2, and 2 asin (sqrt ((1 - x) / 2)) for an x from 1/2 on.
ghost use Rattle.std.specs.Prelude.{◌≡◌};
ghost use Rattle.fdlibm_arc.specs.Acos.{acos_low_of, acos_high_of, acos_of};

use super::e_asin::ratio;
use fdlibm_root::e_sqrt::sqrt;
use float64::sizes::abs;
use float64::words::{cut, high_word, not_a_number};

const ZERO: f64 = 0.0;

const HALF: f64 = 0.5;

const ONE: f64 = 1.0;

const TWO: f64 = 2.0;

const PI: f64 = 3.14159265358979311600e+00; // 0x400921fb 54442d18

const PIO2_HI: f64 = 1.57079632679489655800e+00; // 0x3ff921fb 54442d18

const PIO2_LO: f64 = 6.12323399573676603587e-17; // 0x3c91a626 33145c07

#[tactic(auto, unfolding(crate::specs::Acos::acos_low_of))]
fn acos_low(x: f64) -> f64
    ensures { result ≡ acos_low_of x }
{
    let z = (ONE + x) * HALF;
    let s = sqrt(z);
    let w = ratio(z) * s - PIO2_LO;
    PI - TWO * (s + w)
}

#[tactic(auto, unfolding(crate::specs::Acos::acos_high_of))]
fn acos_high(x: f64) -> f64
    ensures { result ≡ acos_high_of x }
{
    let z = (ONE - x) * HALF;
    let s = sqrt(z);
    let df = cut(s);
    let c = (z - df * df) / (s + df);
    let w = ratio(z) * s + c;
    TWO * (df + w)
}

// The arccosine of x, in radians; NaN beyond 1 in size.
#[tactic(auto, unfolding(crate::specs::Acos::acos_of))]
pub fn acos(x: f64) -> f64
    ensures { result ≡ acos_of x }
{
    let ix = high_word(x);
    if ix >= 0x3ff0_0000 {
        if abs(x) == ONE {
            if x < ZERO { PI + TWO * PIO2_LO } else { ZERO }
        } else {
            not_a_number()
        }
    } else if ix < 0x3fe0_0000 {
        if ix <= 0x3c60_0000 {
            PIO2_HI + PIO2_LO
        } else {
            PIO2_HI - (x - (PIO2_LO - x * ratio(x * x)))
        }
    } else if x < ZERO {
        acos_low(x)
    } else {
        acos_high(x)
    }
}
