// The clock terms of subframe 2: three counts as floating numbers, and back.
#![tactic(auto)]

pub mod clock;
