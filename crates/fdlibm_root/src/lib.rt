// fdlibm's e_sqrt.c: the same results, the exact root rounded once, by another method.
#![tactic(auto)]

mod certify;
mod digits;
pub mod e_sqrt;
