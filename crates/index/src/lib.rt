//! What an index is: what it means, what it refuses, and its calls. Every kind of index implements this, and whatever uses one is proved for every kind.
#![tactic(auto)]

pub mod fault;
pub mod kind;
