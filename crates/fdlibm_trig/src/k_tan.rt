// k_tan.c: the tangent on [-π/4, π/4], by the odd polynomial of degree 27
//     tan x ~ x + T0 x^3 + .. + T12 x^27,   |tan x / x - (1 + T0 x^2 + .. + T12 x^26)| < 2^-59.2.
// From 0.6744 on it uses tan x = 1 - 2 tan (π/4 - x) / (1 + tan (π/4 - x)).
// If the reduction subtracted an odd number of quarter turns, the result is -1 / tan.
ghost use Rattle.std.specs.Prelude.{◌≡◌, cond};
ghost use Rattle.fdlibm_trig.specs.KCos.{one};
ghost use Rattle.fdlibm_trig.specs.KTan.{reciprocal_of, tan_rest_of, tan_large_of, tan_small_of, tan_middle_of, kernel_tan_of, minus_one};

use float64::sizes::abs;
use float64::words::{cut, high_word};

const ZERO: f64 = 0.0;

const ONE: f64 = 1.0;

const MINUS_ONE: f64 = -1.0;

const TWO: f64 = 2.0;

const PIO4: f64 = 7.85398163397448278999e-01; // 0x3fe921fb 54442d18

const PIO4LO: f64 = 3.06161699786838301793e-17; // 0x3c81a626 33145c07

const T0: f64 = 3.33333333333334091986e-01; // 0x3fd55555 55555563

const T1: f64 = 1.33333333333201242699e-01; // 0x3fc11111 1110fe7a

const T2: f64 = 5.39682539762260521377e-02; // 0x3faba1ba 1bb341fe

const T3: f64 = 2.18694882948595424599e-02; // 0x3f9664f4 8406d637

const T4: f64 = 8.86323982359930005737e-03; // 0x3f8226e3 e96e8493

const T5: f64 = 3.59207910759131235356e-03; // 0x3f6d6d22 c9560328

const T6: f64 = 1.45620945432529025516e-03; // 0x3f57dbc8 fee08315

const T7: f64 = 5.88041240820264096874e-04; // 0x3f4344d8 f2f26501

const T8: f64 = 2.46463134818469906812e-04; // 0x3f3026f7 1a8d1068

const T9: f64 = 7.81794442939557092300e-05; // 0x3f147e88 a03792a6

const T10: f64 = 7.14072491382608190305e-05; // 0x3f12b80f 32f0a7e9

const T11: f64 = -1.85586374855275456654e-05; // 0xbef375cb db605373

const T12: f64 = 2.59073051863633712884e-05; // 0x3efb2a70 74bf7ad4

// -1 / w for w = x + r, with the error of the division corrected.
#[tactic(auto, unfolding(crate::specs::KTan::reciprocal_of))]
fn reciprocal(w: f64, x: f64, r: f64) -> f64
    ensures { result ≡ reciprocal_of w x r }
{
    let z = cut(w);
    let v = r - (z - x);
    let a = MINUS_ONE / w;
    let t = cut(a);
    let s = ONE + t * z;
    t + a * (s + t * v)
}

// tan (x + y) - x.
#[tactic(auto, unfolding(crate::specs::KTan::tan_rest_of))]
fn tan_rest(x: f64, y: f64) -> f64
    ensures { result ≡ tan_rest_of x y }
{
    let z = x * x;
    let w = z * z;
    let r = T1 + w * (T3 + w * (T5 + w * (T7 + w * (T9 + w * T11))));
    let v = z * (T2 + w * (T4 + w * (T6 + w * (T8 + w * (T10 + w * T12)))));
    let s = z * x;
    (y + z * (s * (r + v) + y)) + T0 * s
}

#[tactic(auto, unfolding(crate::specs::KTan::tan_small_of))]
fn tan_small(x: f64, y: f64, odd: bool) -> f64
    ensures { result ≡ tan_small_of x y odd }
{
    if odd {
        if x == ZERO {
            ONE / abs(x)
        } else {
            reciprocal(x + y, x, y)
        }
    } else {
        x
    }
}

#[tactic(auto, unfolding(crate::specs::KTan::tan_middle_of))]
fn tan_middle(x: f64, y: f64, odd: bool) -> f64
    ensures { result ≡ tan_middle_of x y odd }
{
    let r = tan_rest(x, y);
    if odd { reciprocal(x + r, x, r) } else { x + r }
}

#[tactic(auto, unfolding(crate::specs::KTan::tan_large_of))]
fn tan_large(x: f64, y: f64, v: f64) -> f64
    ensures { result ≡ tan_large_of x y v }
{
    let u = (PIO4 - x) + (PIO4LO - y);
    let r = tan_rest(u, ZERO);
    let w = u + r;
    v - TWO * (u - (w * w / (w + v) - r))
}

// fdlibm's iy: 1, or -1 after an odd number of quarter turns.
fn side(odd: bool) -> f64
    ensures { result ≡ cond odd minus_one one }
{
    if odd { MINUS_ONE } else { ONE }
}

// The tangent of x + y, or -1 / tan if `odd`.
#[tactic(auto, unfolding(crate::specs::KTan::kernel_tan_of))]
pub fn kernel_tan(x: f64, y: f64, odd: bool) -> f64
    ensures { result ≡ kernel_tan_of x y odd }
{
    let ix = high_word(x);
    if ix < 0x3e30_0000 {
        return tan_small(x, y, odd);
    }
    if ix >= 0x3fe5_9428 {
        let v = side(odd);
        if x < ZERO {
            MINUS_ONE * tan_large(-x, -y, v)
        } else {
            ONE * tan_large(x, y, v)
        }
    } else {
        tan_middle(x, y, odd)
    }
}
