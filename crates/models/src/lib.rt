// models/: what a school chooses, and the names of the prayers. A module for each of the crate's files, and `rules` and `setting` (added).
#![tactic(auto)]

pub mod adjustments;
pub mod high_altitude_rule;
pub mod madhab;
pub mod method;
pub mod numbered;
pub mod parameters;
pub mod prayer;
pub mod rounding;
pub mod rules;
pub mod setting;
pub mod shafaq;
