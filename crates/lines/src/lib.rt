// The lines of a sheet (added), each put into a lent buffer: a row's, a refused day's and a refused order's.
#![tactic(auto)]

pub mod refused;
pub mod row;
mod times;
