// k_sin.c: the sine on [-π/4, π/4], by the odd polynomial of degree 13
//     sin x ~ x + S1 x^3 + .. + S6 x^13,   |sin x / x - (1 + S1 x^2 + .. + S6 x^12)| < 2^-58.
// For an x with the tail y, sin (x + y) ~ sin x + (1 - x^2 / 2) y.
ghost use Rattle.std.specs.Prelude.{◌≡◌, ◌≤◌};
ghost use Rattle.float64.specs.Ops.{◌*ᶠ◌};
ghost use Rattle.float64.specs.Words.{high_of};
ghost use Rattle.fdlibm_trig.specs.KSin.{kernel_sin_of};

use float64::words::high_word;

const HALF: f64 = 0.5;

const S1: f64 = -1.66666666666666324348e-01; // 0xbfc55555 55555549

const S2: f64 = 8.33333333332248946124e-03; // 0x3f811111 1110f8a6

const S3: f64 = -1.98412698298579493134e-04; // 0xbf2a01a0 19c161d5

const S4: f64 = 2.75573137070700676789e-06; // 0x3ec71de3 57b1fe7d

const S5: f64 = -2.50507602534068634195e-08; // 0xbe5ae5e6 8a2b9ceb

const S6: f64 = 1.58969099521155010221e-10; // 0x3de5d93a 5acfd57c

// The sine of x + y for an x that is not tiny, from z = x^2. `tail` says whether y counts, as fdlibm's iy does.
#[tactic(auto, unfolding(crate::specs::KSin::kernel_sin_of))]
pub(crate) fn sin_polynomial(x: f64, y: f64, z: f64, tail: bool) -> f64
    requires { (0x3e40_0000 ≤ high_of x) × (z ≡ x *ᶠ x) }
    ensures { result ≡ kernel_sin_of x y tail }
{
    let v = z * x;
    let r = S2 + z * (S3 + z * (S4 + z * (S5 + z * S6)));
    if tail {
        x - ((z * (HALF * y - v * r) - y) - v * S1)
    } else {
        x + v * (S1 + z * r)
    }
}

// The sine of x + y.
#[tactic(auto, unfolding(crate::specs::KSin::kernel_sin_of))]
pub fn kernel_sin(x: f64, y: f64, tail: bool) -> f64
    ensures { result ≡ kernel_sin_of x y tail }
{
    if high_word(x) < 0x3e40_0000 {
        return x;
    }
    sin_polynomial(x, y, x * x, tail)
}
