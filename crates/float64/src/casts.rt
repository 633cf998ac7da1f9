// Rust's `as` from a float, which saturates: rounded toward zero, the nearest end of the range for a number beyond it, and 0 for a NaN.
ghost use Rattle.std.specs.Prelude.{◌≡◌};
ghost use Rattle.std.specs.Float.Ieee.{to_signed, to_unsigned};

use std::num::{
    saturating_f64_to_i32, saturating_f64_to_i64, saturating_f64_to_u32, saturating_f64_to_u64,
};

// Rust's `x as u64`.
pub fn to_u64(x: f64) -> u64
    ensures { result ≡ to_unsigned 64 x }
{
    saturating_f64_to_u64(x)
}

// Rust's `x as u32`.
pub fn to_u32(x: f64) -> u32
    ensures { result ≡ to_unsigned 32 x }
{
    saturating_f64_to_u32(x)
}

// Rust's `x as i64`.
pub fn to_i64(x: f64) -> i64
    ensures { result ≡ to_signed 63 x }
{
    saturating_f64_to_i64(x)
}

// Rust's `x as i32`.
pub fn to_i32(x: f64) -> i32
    ensures { result ≡ to_signed 31 x }
{
    saturating_f64_to_i32(x)
}
