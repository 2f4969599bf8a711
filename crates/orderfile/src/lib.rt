//! Order files answered: one line over a shop, and a whole day from the bytes of its two files.
#![tactic(auto)]

pub mod answering;
pub mod day;
pub mod laws;
