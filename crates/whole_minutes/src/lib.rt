// Times moved by minutes and rounded to a minute: unit.rs's Stride on a time.
#![tactic(auto)]

pub mod times;
