// The coordinate tables of IS-GPS-800 (6.2.4), and the passes over their ones.
#![tactic(auto)]

mod a2;
mod a3;
mod bcde2;
mod bcde3;
pub mod matrix;
mod pass;
mod t2;
mod t3;
