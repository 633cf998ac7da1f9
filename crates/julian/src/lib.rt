// The Julian Day of a date in f64: ops.rs's julian_day, and unit.rs's Stride on a date.
#![tactic(auto)]

pub mod day;
