// Functions of the crates below as exports, for the runs against the crate that is ported and for measurements. A host does not link them.
#![tactic(auto)]

pub mod dates;
pub mod functions;
pub mod printed;
pub mod readers;
pub mod worked;
