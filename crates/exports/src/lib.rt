// The library for other programs: what `exports_c` gives to C.
#![tactic(auto)]

mod code;
pub mod frame;
mod lent;
pub mod sheet;
