// The words that frames are made of: bit fields, check bits and the time word; and what a refusal is.
#![tactic(auto)]

pub mod bits;
pub mod crc;
pub mod refusal;
pub mod time;
