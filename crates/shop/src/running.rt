//! A shop that is open.
use book::kept::Book;
use holds::sheet::HoldSheet;
use index::kind::Index;

pub mod changing;
pub mod ordering;
pub mod reading;
pub mod serving;

/// A book, the holds on its models, and an index over it. Whether the index is current is the book's own mark.
#[derive(Drop)]
pub struct Shop<I: Index> {
    book: Book,
    sheet: HoldSheet,
    index: I,
}
