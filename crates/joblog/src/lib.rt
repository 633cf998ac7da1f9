// A job's log (added): five-byte records in a lent buffer, read, appended to and compacted.
#![tactic(auto)]

pub mod calls;
mod records;
mod writing;
