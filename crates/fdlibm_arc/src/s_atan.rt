// s_atan.c: the arctangent. Below 7/16 it is the odd polynomial of degree 23,
//     atan x ~ x - x (A0 x^2 + .. + A10 x^22).
// From 7/16 on it uses the arctangent of b, the nearest of 1/2, 1, 3/2 and ∞:
//     atan t = atan b + atan ((t - b) / (1 + t b)).
ghost use Rattle.std.specs.Prelude.{◌≡◌};
ghost use Rattle.fdlibm_arc.specs.Atan.{atan_rest_of, atan_from_of, atan_large_of, atan_of};

use float64::sizes::abs;
use float64::words::high_word;

const ZERO: f64 = 0.0;

const ONE: f64 = 1.0;

const ONEHALF: f64 = 1.5;

const TWO: f64 = 2.0;

const MINUS_ONE: f64 = -1.0;

const HI0: f64 = 4.63647609000806093515e-01; // atan 0.5: 0x3fddac67 0561bb4f

const HI1: f64 = 7.85398163397448278999e-01; // atan 1.0: 0x3fe921fb 54442d18

const HI2: f64 = 9.82793723247329054082e-01; // atan 1.5: 0x3fef730b d281f69b

const HI3: f64 = 1.57079632679489655800e+00; // atan ∞: 0x3ff921fb 54442d18

const LO0: f64 = 2.26987774529616870924e-17; // 0x3c7a2b7f 222f65e2

const LO1: f64 = 3.06161699786838301793e-17; // 0x3c81a626 33145c07

const LO2: f64 = 1.39033110312309984516e-17; // 0x3c700788 7af0cbbd

const LO3: f64 = 6.12323399573676603587e-17; // 0x3c91a626 33145c07

const A0: f64 = 3.33333333333329318027e-01; // 0x3fd55555 5555550d

const A1: f64 = -1.99999999998764832476e-01; // 0xbfc99999 9998ebc4

const A2: f64 = 1.42857142725034663711e-01; // 0x3fc24924 920083ff

const A3: f64 = -1.11111104054623557880e-01; // 0xbfbc71c6 fe231671

const A4: f64 = 9.09088713343650656196e-02; // 0x3fb745cd c54c206e

const A5: f64 = -7.69187620504482999495e-02; // 0xbfb3b0f2 af749a6d

const A6: f64 = 6.66107313738753120669e-02; // 0x3fb10d66 a0d03d51

const A7: f64 = -5.83357013379057348645e-02; // 0xbfadde2d 52defd9a

const A8: f64 = 4.97687799461593236017e-02; // 0x3fa97b4b 24760deb

const A9: f64 = -3.65315727442169155270e-02; // 0xbfa2b444 2c6a6c2f

const A10: f64 = 1.62858201153657823623e-02; // 0x3f90ad3a e322da11

// x - atan x.
#[tactic(auto, unfolding(crate::specs::Atan::atan_rest_of))]
fn atan_rest(x: f64) -> f64
    ensures { result ≡ atan_rest_of x }
{
    let z = x * x;
    let w = z * z;
    let s1 = z * (A0 + w * (A2 + w * (A4 + w * (A6 + w * (A8 + w * A10)))));
    let s2 = w * (A1 + w * (A3 + w * (A5 + w * (A7 + w * A9))));
    x * (s1 + s2)
}

// hi + lo + atan x.
fn atan_from(hi: f64, lo: f64, x: f64) -> f64
    ensures { result ≡ atan_from_of hi lo x }
{
    hi - ((atan_rest(x) - lo) - x)
}

#[tactic(auto, unfolding(crate::specs::Atan::atan_large_of))]
fn atan_large(t: f64, ix: u32) -> f64
    ensures { result ≡ atan_large_of t ix }
{
    if ix < 0x3ff3_0000 {
        if ix < 0x3fe6_0000 {
            atan_from(HI0, LO0, (TWO * t - ONE) / (TWO + t))
        } else {
            atan_from(HI1, LO1, (t - ONE) / (t + ONE))
        }
    } else if ix < 0x4003_8000 {
        atan_from(HI2, LO2, (t - ONEHALF) / (ONE + ONEHALF * t))
    } else {
        atan_from(HI3, LO3, MINUS_ONE / t)
    }
}

// The arctangent of x, in radians.
#[tactic(auto, unfolding(crate::specs::Atan::atan_of))]
pub fn atan(x: f64) -> f64
    ensures { result ≡ atan_of x }
{
    let ix = high_word(x);
    if ix >= 0x4410_0000 {
        if x != x {
            x + x
        } else if x < ZERO {
            -HI3 - LO3
        } else {
            HI3 + LO3
        }
    } else if ix < 0x3fdc_0000 {
        if ix < 0x3e20_0000 {
            x
        } else {
            x - atan_rest(x)
        }
    } else if x < ZERO {
        -atan_large(abs(x), ix)
    } else {
        atan_large(abs(x), ix)
    }
}
