//! What the programs share: the files of a folder, and a day's answers in memory of their own.
#![tactic(auto)]

pub mod answers;
pub mod files;
pub mod reading;
