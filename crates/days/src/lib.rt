// What a host asks (added): work a day, name the prayer, the next one and the time until it, each on the bytes of an order, a row and an
// instant.
#![tactic(auto)]

pub mod day;
pub mod in_force;
