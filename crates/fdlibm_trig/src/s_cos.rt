// s_cos.c: the cosine, by its kernel on [-π/4, π/4] and the reduction beyond.
ghost use Rattle.std.specs.Prelude.{◌≡◌};
ghost use Rattle.fdlibm_trig.specs.Trig.{cos_of};

use super::e_rem_pio2::rem_within;
use super::k_cos::kernel_cos;
use super::s_sin::quarter_turns;
use float64::words::{high_word, not_a_number};

const ZERO: f64 = 0.0;

// The cosine of x radians, which is the sine a quarter turn further; NaN beyond 70 in size.
#[tactic(auto, unfolding(crate::specs::Trig::cos_of))]
pub fn cos(x: f64) -> f64
    ensures { result ≡ cos_of x }
{
    if high_word(x) <= 0x3fe9_21fb {
        return kernel_cos(x, ZERO);
    }
    match rem_within(x) {
        Some(p) => quarter_turns((p.n % 4 + 1) % 4, p.y0, p.y1),
        None => not_a_number(),
    }
}
