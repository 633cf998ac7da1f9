// The reader of an order (added): from bytes to a record of what they order, or to a refusal with its number and place.
#![tactic(auto)]

mod given;
pub mod plain;
mod ranges;
pub mod reading;
