// e_rem_pio2.c up to its medium case: x = n * π/2 + (y0 + y1), |y0| at most about π/4.
// π/2 is held in three parts of 33 bits with their tails. For most x it is enough to subtract the first.
// Near a multiple of π/2 bits cancel, and one or two further turns subtract the next parts.
// fdlibm's medium case goes on to 2^19 π/2. Its large case is not here: sin, cos and tan need no x beyond 70.
ghost use Rattle.std.specs.Prelude.{◌≡◌, ◌<◌, true, false, MatchOption};
ghost use Rattle.std.specs.Float.Ieee.{le};
ghost use Rattle.float64.specs.Sizes.{abs_of};
ghost use Rattle.fdlibm_trig.specs.RemPio2.{npio2_of, exponent_of, less_of, more_of, iteration_of, refine_of, difference_of, medium_of};
ghost use Rattle.fdlibm_trig.specs.Trig.{seventy};
ghost use Rattle.fdlibm_trig.specs.RemPio2.{opposite_of, near_of, near_negative_of, rem_pio2_of};

use float64::casts::to_u32;
use float64::words::high_word;

const ZERO: f64 = 0.0;

const HALF: f64 = 0.5;

const INVPIO2: f64 = 6.36619772367581382433e-01; // 0x3fe45f30 6dc9c883

const PIO2_1: f64 = 1.57079632673412561417e+00; // 0x3ff921fb 54400000

const PIO2_1T: f64 = 6.07710050650619224932e-11; // 0x3dd0b461 1a626331

const PIO2_2: f64 = 6.07710050630396597660e-11; // 0x3dd0b461 1a600000

const PIO2_2T: f64 = 2.02226624879595063154e-21; // 0x3ba3198a 2e037073

const PIO2_3: f64 = 2.02226624871116645580e-21; // 0x3ba3198a 2e000000

const PIO2_3T: f64 = 8.47842766036889956997e-32; // 0x397b839a 252049c1

const SEVENTY: f64 = 70.0;

// A difference or a sum that is still in two parts.
#[derive(Clone, Copy)]
pub struct Parts {
    pub r: f64,
    pub w: f64,
}

// n quarter turns, as n's remainder by 4, and the rest of the angle: y0 with its tail y1.
#[derive(Clone, Copy)]
pub struct Reduced {
    pub n: u32,
    pub y0: f64,
    pub y1: f64,
}

// The high word of n * π/2, n from 1 to 32: fdlibm's npio2_hw[n - 1]. The first part of π/2 alone gives each of them. n = 0 is taken as 1.
// Returns 0 beyond the table's end.
fn npio2(n: u32) -> u32
    ensures { result ≡ npio2_of n }
{
    if n == 0 {
        return 0x3ff9_21fb;
    }
    if n <= 32 {
        return high_word(n as f64 * PIO2_1);
    }
    0
}

// The exponent field of y's bit pattern.
fn exponent(y: f64) -> u32
    ensures { (result ≡ exponent_of y) × (result < 4096) }
{
    high_word(y) / 0x0010_0000
}

fn less(n: u32, p: Parts) -> Reduced
    ensures { result ≡ less_of n p }
{
    let y0 = p.r - p.w;
    Reduced {
        n,
        y0,
        y1: (p.r - y0) - p.w,
    }
}

fn more(n: u32, p: Parts) -> Reduced
    ensures { result ≡ more_of n p }
{
    let y0 = p.r + p.w;
    Reduced {
        n,
        y0,
        y1: (p.r - y0) + p.w,
    }
}

// One turn more, with the next part of π/2, a, and its tail b.
fn turn(t: f64, k: f64, a: f64, b: f64) -> Parts
    ensures { result ≡ iteration_of t k a b }
{
    let w = k * a;
    let r = t - w;
    Parts {
        r,
        w: k * b - ((t - r) - w),
    }
}

// t less k * π/2. The number of cancelled bits decides how many turns are taken.
#[tactic(auto, unfolding(crate::specs::RemPio2::refine_of))]
fn refine(k: f64, j: u32, t: f64) -> Parts
    ensures { result ≡ refine_of k j t }
{
    let r = t - k * PIO2_1;
    let w = k * PIO2_1T;
    if exponent(r - w) + 16 < j {
        let p = turn(r, k, PIO2_2, PIO2_2T);
        if exponent(p.r - p.w) + 49 < j {
            turn(p.r, k, PIO2_3, PIO2_3T)
        } else {
            p
        }
    } else {
        Parts { r, w }
    }
}

// t less n * π/2. Further turns are considered for n from 32 on, and for smaller n only if t is near n * π/2.
#[tactic(auto, unfolding(crate::specs::RemPio2::difference_of))]
fn difference(t: f64, ix: u32, n: u32) -> Parts
    ensures { result ≡ difference_of t ix n }
{
    let k = n as f64;
    if n < 32 {
        if ix == npio2(n) {
            refine(k, ix / 0x0010_0000, t)
        } else {
            Parts {
                r: t - k * PIO2_1,
                w: k * PIO2_1T,
            }
        }
    } else {
        refine(k, ix / 0x0010_0000, t)
    }
}

fn medium(t: f64, ix: u32) -> Reduced
    ensures { result ≡ medium_of t ix }
{
    let n = to_u32(t * INVPIO2 + HALF);
    less(n % 4, difference(t, ix, n))
}

fn turned(p: Reduced) -> Reduced
    ensures { result ≡ opposite_of p }
{
    Reduced {
        n: p.n % 4 * 3 % 4,
        y0: -p.y0,
        y1: -p.y1,
    }
}

#[tactic(auto, unfolding(crate::specs::RemPio2::near_of))]
fn near(x: f64, ix: u32) -> Parts
    ensures { result ≡ near_of x ix }
{
    if ix == 0x3ff9_21fb {
        Parts {
            r: x - PIO2_1 - PIO2_2,
            w: PIO2_2T,
        }
    } else {
        Parts {
            r: x - PIO2_1,
            w: PIO2_1T,
        }
    }
}

#[tactic(auto, unfolding(crate::specs::RemPio2::near_negative_of))]
fn near_negative(x: f64, ix: u32) -> Parts
    ensures { result ≡ near_negative_of x ix }
{
    if ix == 0x3ff9_21fb {
        Parts {
            r: x + PIO2_1 + PIO2_2,
            w: PIO2_2T,
        }
    } else {
        Parts {
            r: x + PIO2_1,
            w: PIO2_1T,
        }
    }
}

// x less the nearest multiple of π/2.
#[tactic(auto, unfolding(crate::specs::RemPio2::rem_pio2_of))]
pub fn rem_pio2(x: f64) -> Reduced
    ensures { result ≡ rem_pio2_of x }
{
    let ix = high_word(x);
    if ix <= 0x3fe9_21fb {
        return Reduced {
            n: 0,
            y0: x,
            y1: ZERO,
        };
    }
    if ix < 0x4002_d97c {
        if x < ZERO {
            more(3, near_negative(x, ix))
        } else {
            less(1, near(x, ix))
        }
    } else if x < ZERO {
        turned(medium(-x, ix))
    } else {
        medium(x, ix)
    }
}

// The same, or none beyond 70 in size (added). It is inlined: through memory the parts of the result cost a third of a sine more.
#[inline(always)]
#[tactic(auto, using(crate::proofs::Signs::within_seventy))]
pub(crate) fn rem_within(x: f64) -> Option<Reduced>
    ensures { MatchOption result (le (abs_of x) seventy ≡ false) (λ p. (le (abs_of x) seventy ≡ true) × (p ≡ rem_pio2_of x)) }
{
    if (-SEVENTY <= x) & (x <= SEVENTY) {
        Some(rem_pio2(x))
    } else {
        None
    }
}
