// What the programs `bench` and `readback` print for the bytes that they are given.
#![tactic(auto)]

// A frame's symbols.
pub const FRAME: usize = 1800;

// The bits of a page.
const PAGE_BITS: usize = 250;

pub mod building;
pub mod output;
pub mod reading;
mod symbols;
