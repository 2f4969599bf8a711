//! The words in which the law of a last shop is stated, over the calls made on it: calls, answers and faults, and what they come to.
#![tactic(auto)]

pub mod answer;
pub mod call;
pub mod fault;
pub mod laws;
