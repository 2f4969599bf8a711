//! The search from one model: what it leads to by a chain of derivations.
#![tactic(auto)]

pub mod plain;
pub mod successors;
