// Pages of cells (added): a row or a page of an order in a lent buffer, all its pages, and the dots that they punch.
#![tactic(auto)]

pub mod answer;
pub mod page;
pub mod report;
pub mod row;
mod rows;
