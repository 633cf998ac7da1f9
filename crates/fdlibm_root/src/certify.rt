// A candidate for the whole number nearest to the root of m * 2^52, computed with floats. Whole-number arithmetic then decides whether it
// is right.
ghost use Rattle.std.specs.Prelude.{◌≡◌, ◌+◌, ◌*◌, ◌^◌, ◌<◌, IfSome};
ghost use Rattle.fdlibm_root.specs.Near.{NearRoot};

// 1 / sqrt(f) is within 4 % of the float whose pattern is GUESS less half of f's pattern
const GUESS: u64 = 0x5fe6_eb50_c7b5_37a9;

// the leading digit of a normal float's significand, which its pattern leaves out
pub const LEADING: u64 = 0x0010_0000_0000_0000;

// is added to a residue: no number here may be negative
const OFFSET: u64 = 0x0080_0000_0000_0000;

// sqrt(f) * 2^52 for the f in [1, 4) with this pattern. It is nearly always right to a unit, but the contract promises only its size.
// g and y are near sqrt(f) and 1 / sqrt(f). Each of two steps multiplies them by 1 / sqrt(1 - e) = 1 + e * (1/2 + 3/8 e + 5/16 e^2 + ..),
// where g * y = 1 - e.
pub fn estimate(pattern: u64) -> u64
    requires { pattern < 0x4010_0000_0000_0000 }
    ensures { result < 2 ^ 53 }
{
    let y = f64::from_bits(GUESS - pattern / 2);
    let g = f64::from_bits(pattern) * y;
    let e = 1.0 - g * y;
    let p = 0.5 + e * 0.375 + e * e * 0.3125;
    let g1 = g + g * e * p;
    let e1 = 1.0 - g1 * (y + y * e * p);
    let r = g1 + g1 * e1 * (0.5 + e1 * 0.375 + e1 * e1 * 0.3125);
    std::num::f64_to_bits_with_nan(r) % LEADING + LEADING
}

// OFFSET + m * 2^52 - s * s, or none if the tests do not show that it is near OFFSET and that no sum or product overflows.
// With s = a * 2^27 + b the difference is e * 2^52 - 2 * a * b * 2^27 - b * b, where e = m - 4 * a * a.
// `over` and `under` count the multiples of 2^27 in OFFSET and e * 2^52, and in the rest.
fn residue(m: u64, s: u64) -> Option<u64>
    requires { (m < 2 ^ 54) × (s < 2 ^ 53) }
    ensures { IfSome result (λ z. (z < 2 ^ 57) × (z + s * s ≡ 2 ^ 55 + m * 2 ^ 52)) }
{
    let a = s / 0x800_0000;
    let b = s % 0x800_0000;
    let under = 2 * a * b + b * b / 0x800_0000;
    let e = m.checked_sub(4 * a * a)?;
    if e >= under / 0x200_0000 + 8 {
        return None;
    }
    let over = e * 0x200_0000 + 0x1000_0000;
    if under < over {
        Some((over - under) * 0x800_0000 - b * b % 0x800_0000)
    } else {
        None
    }
}

// The whole number nearest to the root of m * 2^52 if that is s or a neighbour of s. For example, it is s + 1 if
// m * 2^52 - s * s is above s and at most 3 * s + 2: then m * 2^52 is above s * (s + 1) and at most (s + 1) * (s + 2).
pub fn corrected(m: u64, s: u64) -> Option<u64>
    requires { (m < 2 ^ 54) × (s < 2 ^ 53) }
    ensures { IfSome result (NearRoot m) }
{
    let z = residue(m, s)?;
    if z + 3 * s > OFFSET + 2 && z <= OFFSET + 3 * s + 2 {
        Some(s + (z > OFFSET + s) as u64 - (z + s <= OFFSET) as u64)
    } else {
        None
    }
}
