//! The two files of a day.
ghost use Rattle.std.specs.Prelude.{◌≡◌};

use crate::reading::{book_bytes, order_bytes, read};
use orderfile::day::Day;
use std::io;

/// What was read of a book file and of an order file.
#[derive(Drop)]
pub struct Files {
    book: Vec<u8>,
    orders: Vec<u8>,
}

impl Files {
    /// Reads as much of the two files as decides what their day prints.
    pub fn read(rt: &HostRuntime, book: &str, orders: &str) -> io::Result<Files> {
        Ok(Files {
            book: read(rt, book, book_bytes())?,
            orders: read(rt, orders, order_bytes())?,
        })
    }

    /// Their bytes.
    pub fn day(&self) -> Day<'_>
        ensures book { result.book.now ≡ self.now.book.items }
        ensures orders { result.orders.now ≡ self.now.orders.items }
    {
        Day {
            book: self.book.as_slice(),
            orders: self.orders.as_slice(),
        }
    }
}
