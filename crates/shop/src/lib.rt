//! The shop: a book, a hold sheet and an index, the six calls on them, and the law over the calls made.
#![tactic(auto)]

pub mod loading;
pub mod running;
pub mod runs;
