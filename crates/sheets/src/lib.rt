// The sheet of an order (added): a row's line, or the whole sheet's text, at the front of a lent buffer.
#![tactic(auto)]

pub mod row;
pub mod sheet;
