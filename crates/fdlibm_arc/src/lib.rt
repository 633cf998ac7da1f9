// Sun's fdlibm 5.3, the arc functions: a module for each of its files.
// The definitions in specs/ have the same names, operation by operation.
#![tactic(auto)]

pub mod e_acos;
pub mod e_asin;
pub mod e_atan2;
pub mod s_atan;
