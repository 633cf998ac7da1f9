// The methods and casts of Rust's f64 as total functions, and the words of a bit pattern.
#![tactic(auto)]

pub mod bits;
pub mod casts;
pub mod sizes;
pub mod whole;
pub mod words;
