//! Order lines: from the bytes of a file to its lines, from a line to the call that it says, and from an answer to its line.
#![tactic(auto)]

pub mod fault;
pub mod form;
pub mod laws;
pub mod parsing;
pub mod reading;
pub mod reply;
