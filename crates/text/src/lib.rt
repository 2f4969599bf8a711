//! Text as bytes: bytes placed in a buffer, and decimal numerals.
#![tactic(auto)]

pub mod numeral;
pub mod writing;
