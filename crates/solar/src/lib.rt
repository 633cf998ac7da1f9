// solar.rs: the sun's hour numbers over a place on a day, and an hour number as a time. The sun's position is ops::coordinates.
// Hour numbers are floats that depend on date and place alone. Times are whole seconds, made from hour numbers and the date.
#![tactic(auto)]

pub mod hours;
mod past_midnight;
pub mod setting;
pub mod times;
