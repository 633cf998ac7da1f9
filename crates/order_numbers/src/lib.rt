// An order in numbers (added): the struct that a host gets for an order's bytes, and the bytes that are read as a given struct.
#![tactic(auto)]

mod bytes;
pub mod numbers;
mod put;
pub mod writing;
