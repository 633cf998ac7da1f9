// ops.rs: the formulas of the sun and of the season. Its formulas of dates are the crates calendar's and julian's. `coordinates`, the sun's
// position, is solar.rs's: a course is made from three positions.
#![tactic(auto)]

pub mod coordinates;
pub mod interpolation;
pub mod season;
pub mod sun;
pub mod transit;
