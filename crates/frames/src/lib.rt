// Whole frames: building them from contents, and reading them.
#![tactic(auto)]

mod block;
pub mod build;
pub mod read;
mod symbols;
