// The fields that frames carry: those of subframe 2 and the pages of subframe 3.
#![tactic(auto)]

pub mod counts;
pub mod delay;
pub mod pages;
mod rows;
pub mod subframe2;
pub mod table;
