// Portions of a night in f64, cut toward zero to whole seconds.
#![tactic(auto)]

pub mod portions;
