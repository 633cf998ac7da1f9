// The sine and the cosine of one angle (added): both use one reduction and two kernels.
ghost use Rattle.std.specs.Prelude.{◌≡◌, ◌<◌};
ghost use Rattle.fdlibm_trig.specs.Steps.{kernels_of, both_turns_of};
ghost use Rattle.fdlibm_trig.specs.Trig.{sincos_of};

use super::e_rem_pio2::rem_within;
use super::k_cos::cos_polynomial;
use super::k_sin::sin_polynomial;
use float64::words::{high_word, not_a_number};

const ZERO: f64 = 0.0;

const ONE: f64 = 1.0;

#[derive(Clone, Copy)]
pub struct Both {
    pub sin: f64,
    pub cos: f64,
}

// Sine and cosine of x + y on [-π/4, π/4]: the two kernels, with one test and one square for both.
#[tactic(auto, unfolding(crate::specs::KSin::kernel_sin_of, crate::specs::KCos::kernel_cos_of))]
fn kernels(x: f64, y: f64, tail: bool) -> Both
    ensures { result ≡ kernels_of x y tail }
{
    let ix = high_word(x);
    if ix < 0x3e40_0000 {
        return Both { sin: x, cos: ONE };
    }
    let z = x * x;
    Both {
        sin: sin_polynomial(x, y, z, tail),
        cos: cos_polynomial(x, y, z, ix),
    }
}

// Sine and cosine of n quarter turns and y0 + y1.
#[tactic(auto, unfolding(crate::specs::Trig::quarter_turns_of))]
fn both_turns(n: u32, y0: f64, y1: f64) -> Both
    requires { n < 4 }
    ensures { result ≡ both_turns_of n y0 y1 }
{
    let Both { sin, cos } = kernels(y0, y1, true);
    match n {
        0 => Both { sin, cos },
        1 => Both {
            sin: cos,
            cos: -sin,
        },
        2 => Both {
            sin: -sin,
            cos: -cos,
        },
        _ => Both {
            sin: -cos,
            cos: sin,
        },
    }
}

// Sine and cosine of x radians; NaN beyond 70 in size.
#[tactic(auto, using(crate::proofs::Quarters::quarters), unfolding(crate::specs::Trig::sin_of, crate::specs::Trig::cos_of))]
pub fn sincos(x: f64) -> Both
    ensures { result ≡ sincos_of x }
{
    if high_word(x) <= 0x3fe9_21fb {
        return kernels(x, ZERO, false);
    }
    match rem_within(x) {
        Some(p) => both_turns(p.n, p.y0, p.y1),
        None => Both {
            sin: not_a_number(),
            cos: not_a_number(),
        },
    }
}
