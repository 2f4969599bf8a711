//! The book file: two sizes, and then two parallel arrays of numbers of 16 bits, low byte first. Checked, read and written.
#![tactic(auto)]

pub mod checked;
pub mod copying;
pub mod refusal;
mod words;
pub mod writing;
