// s_sin.c: the sine, by its kernel on [-π/4, π/4] and the reduction beyond.
ghost use Rattle.std.specs.Prelude.{◌≡◌};
ghost use Rattle.fdlibm_trig.specs.Trig.{quarter_turns_of, sin_of};

use super::e_rem_pio2::rem_within;
use super::k_cos::kernel_cos;
use super::k_sin::kernel_sin;
use float64::words::{high_word, not_a_number};

const ZERO: f64 = 0.0;

// The sine of n quarter turns and y0 + y1.
#[tactic(auto, unfolding(crate::specs::Trig::quarter_turns_of))]
pub fn quarter_turns(n: u32, y0: f64, y1: f64) -> f64
    ensures { result ≡ quarter_turns_of n y0 y1 }
{
    match n {
        0 => kernel_sin(y0, y1, true),
        1 => kernel_cos(y0, y1),
        2 => -kernel_sin(y0, y1, true),
        _ => -kernel_cos(y0, y1),
    }
}

// The sine of x radians; NaN beyond 70 in size.
#[tactic(auto, unfolding(crate::specs::Trig::sin_of))]
pub fn sin(x: f64) -> f64
    ensures { result ≡ sin_of x }
{
    if high_word(x) <= 0x3fe9_21fb {
        return kernel_sin(x, ZERO, false);
    }
    match rem_within(x) {
        Some(p) => quarter_turns(p.n, p.y0, p.y1),
        None => not_a_number(),
    }
}
