// k_cos.c: the cosine on [-π/4, π/4], by the even polynomial of degree 14
//     cos x ~ 1 - x^2 / 2 + C1 x^4 + .. + C6 x^14,   within 2^-58.
// From 0.3 on 1 - x^2 / 2 would lose bits, so qx, about x / 4 and exact, is subtracted from both first:
//     (1 - qx) - ((x^2 / 2 - qx) - r).
ghost use Rattle.std.specs.Prelude.{◌≡◌, ◌≤◌};
ghost use Rattle.float64.specs.Ops.{◌*ᶠ◌};
ghost use Rattle.float64.specs.Words.{high_of};
ghost use Rattle.fdlibm_trig.specs.KCos.{kernel_cos_of, quarter_of};

use float64::words::high_word;

const ONE: f64 = 1.0;

const HALF: f64 = 0.5;

const C1: f64 = 4.16666666666666019037e-02; // 0x3fa55555 5555554c

const C2: f64 = -1.38888888888741095749e-03; // 0xbf56c16c 16c15177

const C3: f64 = 2.48015872894767294178e-05; // 0x3efa01a0 19cb1590

const C4: f64 = -2.75573143513906633035e-07; // 0xbe927e4f 809c52ad

const C5: f64 = 2.08757232129817482790e-09; // 0x3e21ee9e bdb4b1c4

const C6: f64 = -1.13596475577881948265e-11; // 0xbda8fae9 be8838d4

const QX_TOP: f64 = 0.28125;

// qx, from the high word of |x|.
fn quarter(ix: u32) -> f64
    requires { 0x3fd3_3333 ≤ ix }
    ensures { result ≡ quarter_of ix }
{
    if ix > 0x3fe9_0000 {
        QX_TOP
    } else {
        f64::from_bits(((ix - 0x0020_0000) as u64) << 32)
    }
}

// The cosine of x + y for an x that is not tiny, from z = x^2 and the high word of |x|.
#[tactic(auto, unfolding(crate::specs::KCos::kernel_cos_of))]
pub(crate) fn cos_polynomial(x: f64, y: f64, z: f64, ix: u32) -> f64
    requires { (0x3e40_0000 ≤ high_of x) × (z ≡ x *ᶠ x) × (ix ≡ high_of x) }
    ensures { result ≡ kernel_cos_of x y }
{
    let r = z * (C1 + z * (C2 + z * (C3 + z * (C4 + z * (C5 + z * C6)))));
    if ix < 0x3fd3_3333 {
        ONE - (HALF * z - (z * r - x * y))
    } else {
        let qx = quarter(ix);
        let hz = HALF * z - qx;
        let a = ONE - qx;
        a - (hz - (z * r - x * y))
    }
}

// The cosine of x + y.
#[tactic(auto, unfolding(crate::specs::KCos::kernel_cos_of))]
pub fn kernel_cos(x: f64, y: f64) -> f64
    ensures { result ≡ kernel_cos_of x y }
{
    let ix = high_word(x);
    if ix < 0x3e40_0000 {
        return ONE;
    }
    cos_polynomial(x, y, x * x, ix)
}
