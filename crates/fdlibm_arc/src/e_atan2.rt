// e_atan2.c: the angle of the point (x, y), from -π to π: the arctangent of |y / x|, moved to its quadrant by the two signs.
ghost use Rattle.std.specs.Prelude.{◌≡◌};
ghost use Rattle.fdlibm_arc.specs.Atan2.{quadrant_of, upright_of, level_of, infinite_of, quotient_of, finite_of, atan2_of};

use super::s_atan::atan;
use float64::sizes::abs;
use float64::words::{high_word, is_negative, not_a_number};

const ZERO: f64 = 0.0;

const HALF: f64 = 0.5;

const ONE: f64 = 1.0;

const MINUS_ONE: f64 = -1.0;

const THREE: f64 = 3.0;

const TINY: f64 = 1.0e-300;

const PI_O_4: f64 = 7.8539816339744827900e-01; // 0x3fe921fb 54442d18

const PI_O_2: f64 = 1.5707963267948965580e+00; // 0x3ff921fb 54442d18

const PI: f64 = 3.1415926535897931160e+00; // 0x400921fb 54442d18

const PI_LO: f64 = 1.2246467991473531772e-16; // 0x3ca1a626 33145c07

// One of four, by the signs of x and of y.
fn quadrant(xs: bool, ys: bool, a: f64, b: f64, c: f64, d: f64) -> f64
    ensures { result ≡ quadrant_of xs ys a b c d }
{
    match (xs, ys) {
        (false, false) => a,
        (false, true) => b,
        (true, false) => c,
        (true, true) => d,
    }
}

fn upright(ys: bool) -> f64
    ensures { result ≡ upright_of ys }
{
    if ys { -PI_O_2 - TINY } else { PI_O_2 + TINY }
}

fn level(xs: bool, ys: bool, y: f64) -> f64
    ensures { result ≡ level_of xs ys y }
{
    quadrant(xs, ys, y, y, PI + TINY, -PI - TINY)
}

#[tactic(auto, unfolding(crate::specs::Atan2::infinite_of))]
fn infinite(xs: bool, ys: bool, ix: u32, iy: u32) -> f64
    ensures { result ≡ infinite_of xs ys ix iy }
{
    if ix == 0x7ff0_0000 {
        if iy == 0x7ff0_0000 {
            quadrant(
                xs,
                ys,
                PI_O_4 + TINY,
                -PI_O_4 - TINY,
                THREE * PI_O_4 + TINY,
                -(THREE * PI_O_4) - TINY,
            )
        } else {
            quadrant(xs, ys, ZERO, MINUS_ONE * ZERO, PI + TINY, -PI - TINY)
        }
    } else {
        upright(ys)
    }
}

// The angle of (|x|, |y|), or 0 if it is so small that adding it to π changes nothing.
#[tactic(auto, unfolding(crate::specs::Atan2::quotient_of))]
fn quotient(y: f64, x: f64, xs: bool, ix: u32, iy: u32) -> f64
    ensures { result ≡ quotient_of y x xs ix iy }
{
    if ix as u64 + 0x03d0_0000 <= iy as u64 {
        PI_O_2 + HALF * PI_LO
    } else if xs && iy as u64 + 0x03c0_0000 < ix as u64 {
        ZERO
    } else {
        atan(abs(y / x))
    }
}

fn finite(xs: bool, ys: bool, z: f64) -> f64
    ensures { result ≡ finite_of xs ys z }
{
    quadrant(xs, ys, z, -z, PI - (z - PI_LO), (z - PI_LO) - PI)
}

// The angle of (x, y), in radians.
#[tactic(auto, unfolding(crate::specs::Atan2::atan2_of))]
pub fn atan2(y: f64, x: f64) -> f64
    ensures { result ≡ atan2_of y x }
{
    if x != x {
        return not_a_number();
    }
    if y != y {
        return not_a_number();
    }
    if x == ONE {
        return atan(y);
    }
    let xs = is_negative(x);
    let ys = is_negative(y);
    if y == ZERO {
        return level(xs, ys, y);
    }
    if x == ZERO {
        return upright(ys);
    }
    let ix = high_word(x);
    let iy = high_word(y);
    if ix == 0x7ff0_0000 {
        infinite(xs, ys, ix, iy)
    } else if iy == 0x7ff0_0000 {
        infinite(xs, ys, ix, iy)
    } else {
        finite(xs, ys, quotient(y, x, xs, ix, iy))
    }
}
