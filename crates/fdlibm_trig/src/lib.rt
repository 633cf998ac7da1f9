// Sun's fdlibm 5.3, the sine, the cosine and the tangent: a module for each of its files.
// The definitions in specs/ have the same names, operation by operation.
#![tactic(auto)]

pub mod e_rem_pio2;
pub mod k_cos;
pub mod k_sin;
pub mod k_tan;
pub mod s_cos;
pub mod s_sin;
pub mod s_sincos;
pub mod s_tan;
