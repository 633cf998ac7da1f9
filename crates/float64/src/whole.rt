// Whole numbers near a float. The work is done on positive numbers: for a negative x, on -x. A zero and a NaN are returned as they are,
// because a zero must keep its sign.
// std's floor, trunc and round were tried: each takes half as long again, because it takes the size first and sets the sign after.
// The three public functions differ in what they do to each side of zero. One with closures for that has a longer contract than the three.
ghost use Rattle.std.specs.Prelude.{◌≡◌, true};
ghost use Rattle.std.specs.Float.Ieee.{lt, neg};
ghost use Rattle.float64.specs.Ops.{bits};
ghost use Rattle.float64.specs.Whole.{floor_of, trunc_of, round_of};

// 2^52. From here on a float has no fraction, so adding it to x and subtracting it again leaves a whole number next to x.
const WHOLE: f64 = 4503599627370496.0;

// The whole part of x > 0. The test's 0 or 1 is subtracted: a branch on it would be mispredicted half of the time.
fn lower(x: f64) -> f64
    requires { lt (bits 0) x ≡ true }
    ensures { result ≡ trunc_of x }
{
    if x < WHOLE {
        let k = (x + WHOLE) - WHOLE;
        k - ((k > x) as u8 as f64)
    } else {
        x
    }
}

// The smallest whole number that is not below x > 0.
fn upper(x: f64) -> f64
    requires { lt (bits 0) x ≡ true }
    ensures { neg result ≡ floor_of (neg x) }
{
    if x < WHOLE {
        let k = (x + WHOLE) - WHOLE;
        k + ((k < x) as u8 as f64)
    } else {
        x
    }
}

// The whole part of x > 0, or one more if the fraction is a half or more. The difference x - k is exact.
fn half_up(x: f64) -> f64
    requires { lt (bits 0) x ≡ true }
    ensures { result ≡ round_of x }
{
    if x < WHOLE {
        let k = lower(x);
        k + (!(x - k < 0.5) as u8 as f64)
    } else {
        x
    }
}

// The largest whole number that is not above x.
pub fn floor(x: f64) -> f64
    ensures { result ≡ floor_of x }
{
    if x > 0.0 {
        return lower(x);
    }
    if x < 0.0 {
        return -upper(-x);
    }
    x
}

// x without its fraction.
pub fn trunc(x: f64) -> f64
    ensures { result ≡ trunc_of x }
{
    if x > 0.0 {
        return lower(x);
    }
    if x < 0.0 {
        return -lower(-x);
    }
    x
}

// The whole number nearest to x; if two are as near, the one further from zero.
pub fn round(x: f64) -> f64
    ensures { result ≡ round_of x }
{
    if x > 0.0 {
        return half_up(x);
    }
    if x < 0.0 {
        return -half_up(-x);
    }
    x
}
