// Seven days at a glance (added): the earliest and the latest Fajr of every seven successive rows of an order, as text in a lent buffer.
#![tactic(auto)]

mod line;
mod minutes;
pub mod report;
mod window;
