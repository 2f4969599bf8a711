//! The model book: the checked count of models, derivations, and the book that keeps them.
#![tactic(auto)]

pub mod count;
pub mod derivation;
pub mod kept;
pub mod refusal;
