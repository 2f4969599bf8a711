//! The hold sheet: which models are on hold, and by whom.
#![tactic(auto)]

pub mod fault;
pub mod sheet;
