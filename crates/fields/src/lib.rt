// The bytes of an order as fields (added): which bytes break the fields' form, where a tag's value is, and what numbers its bytes write.
// The crate order has the ranges of all other values than choices, and what a missing tag means.
#![tactic(auto)]

mod faults;
pub mod numbers;
pub mod one_pass;
pub mod plain;
pub mod tags;
pub mod values;
