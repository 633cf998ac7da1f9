// e_asin.c: the arcsine. Below 1/2 it is x + x R(x^2), where R is a rational approximation of (asin x - x) / x within 2^-58.75.
// From 1/2 on asin x = π/2 - 2 asin (sqrt ((1 - x) / 2)); below 0.975 the root's error is corrected.
ghost use Rattle.std.specs.Prelude.{◌≡◌};
ghost use Rattle.fdlibm_arc.specs.Asin.{ratio_of, asin_large_of, asin_of};

use fdlibm_root::e_sqrt::sqrt;
use float64::sizes::abs;
use float64::words::{cut, high_word, not_a_number};

const ZERO: f64 = 0.0;

const HALF: f64 = 0.5;

const ONE: f64 = 1.0;

const TWO: f64 = 2.0;

const PIO2_HI: f64 = 1.57079632679489655800e+00; // 0x3ff921fb 54442d18

const PIO2_LO: f64 = 6.12323399573676603587e-17; // 0x3c91a626 33145c07

const PIO4_HI: f64 = 7.85398163397448278999e-01; // 0x3fe921fb 54442d18

const P0: f64 = 1.66666666666666657415e-01; // 0x3fc55555 55555555

const P1: f64 = -3.25565818622400915405e-01; // 0xbfd4d612 03eb6f7d

const P2: f64 = 2.01212532134862925881e-01; // 0x3fc9c155 0e884455

const P3: f64 = -4.00555345006794114027e-02; // 0xbfa48228 b5688f3b

const P4: f64 = 7.91534994289814532176e-04; // 0x3f49efe0 7501b288

const P5: f64 = 3.47933107596021167570e-05; // 0x3f023de1 0dfdf709

const Q1: f64 = -2.40339491173441421878e+00; // 0xc0033a27 1c8a2d4b

const Q2: f64 = 2.02094576023350569471e+00; // 0x40002ae5 9c598ac8

const Q3: f64 = -6.88283971605453293030e-01; // 0xbfe6066c 1b8d0159

const Q4: f64 = 7.70381505559019352791e-02; // 0x3fb3b8c5 b12e9282

// R(t).
#[tactic(auto, unfolding(crate::specs::Asin::ratio_of))]
pub fn ratio(t: f64) -> f64
    ensures { result ≡ ratio_of t }
{
    let p = t * (P0 + t * (P1 + t * (P2 + t * (P3 + t * (P4 + t * P5)))));
    let q = ONE + t * (Q1 + t * (Q2 + t * (Q3 + t * Q4)));
    p / q
}

#[tactic(auto, unfolding(crate::specs::Asin::asin_large_of))]
fn asin_large(x: f64, ix: u32) -> f64
    ensures { result ≡ asin_large_of x ix }
{
    let t = (ONE - x) * HALF;
    let r = ratio(t);
    let s = sqrt(t);
    if ix >= 0x3fef_3333 {
        PIO2_HI - (TWO * (s + s * r) - PIO2_LO)
    } else {
        let w = cut(s);
        let c = (t - w * w) / (s + w);
        let p = TWO * s * r - (PIO2_LO - TWO * c);
        let q = PIO4_HI - TWO * w;
        PIO4_HI - (p - q)
    }
}

// The arcsine of x, in radians; NaN beyond 1 in size.
#[tactic(auto, unfolding(crate::specs::Asin::asin_of))]
pub fn asin(x: f64) -> f64
    ensures { result ≡ asin_of x }
{
    let ix = high_word(x);
    if ix >= 0x3ff0_0000 {
        if abs(x) == ONE {
            x * PIO2_HI + x * PIO2_LO
        } else {
            not_a_number()
        }
    } else if ix < 0x3fe0_0000 {
        if ix < 0x3e40_0000 {
            x
        } else {
            x + x * ratio(x * x)
        }
    } else if x < ZERO {
        -asin_large(abs(x), ix)
    } else {
        asin_large(abs(x), ix)
    }
}
