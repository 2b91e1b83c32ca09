// Message sheets: reading them at the end of lent bytes, writing them, and walking over the sheets of a file.
#![tactic(auto)]

mod lines;
pub mod list;
mod number;
pub mod sheet;
pub mod text;
pub mod trailer;
pub mod walk;
pub mod write;
