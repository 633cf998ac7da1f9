// s_tan.c: the tangent, by its kernel on [-π/4, π/4] and the reduction beyond.
ghost use Rattle.std.specs.Prelude.{◌≡◌};
ghost use Rattle.fdlibm_trig.specs.Trig.{tan_of};

use super::e_rem_pio2::rem_within;
use super::k_tan::kernel_tan;
use float64::words::{high_word, not_a_number};

const ZERO: f64 = 0.0;

// The tangent of x radians; NaN beyond 70 in size.
#[tactic(auto, unfolding(crate::specs::Trig::tan_of))]
pub fn tan(x: f64) -> f64
    ensures { result ≡ tan_of x }
{
    if high_word(x) <= 0x3fe9_21fb {
        return kernel_tan(x, ZERO, false);
    }
    match rem_within(x) {
        Some(p) => kernel_tan(p.y0, p.y1, p.n % 2 == 1),
        None => not_a_number(),
    }
}
