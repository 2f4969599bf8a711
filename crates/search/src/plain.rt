//! Plain search: the kind of index that keeps the derivations and searches them at each question.
use crate::successors::Successors;

pub mod asking;
pub mod kind;

/// The successors of the book that it was built from, if it was built.
#[derive(Drop)]
pub struct PlainSearch {
    successors: Option<Successors>,
}
