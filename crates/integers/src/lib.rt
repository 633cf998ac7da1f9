// Definitions (specs/) and laws (proofs/) of whole numbers, stated once for the crates above, and the two parts of a signed number.
#![tactic(auto)]

pub mod parts;
