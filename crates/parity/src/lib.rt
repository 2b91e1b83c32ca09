// The parity equations of a subframe, its parity symbols, and the order in which symbols leave.
#![tactic(auto)]

pub mod equations;
pub mod fill;
pub mod order;
