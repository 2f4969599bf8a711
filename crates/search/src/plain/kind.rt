//! Plain search as a kind of index. It takes every book: no surplus reaches its capacity.
ghost use Rattle.std.specs.Prelude.{◌≡◌};
ghost use Rattle.index.specs.Meanings.{nothing};
ghost use Rattle.index.specs.Builds.{rule};
ghost use Rattle.search.specs.Plain.{meaning_of, Shows};
ghost use Rattle.std.proofs.Common.{rules};

use crate::plain::PlainSearch;
use crate::successors::Successors;
use book::kept::Book;
use index::fault::IndexFault;
use index::kind::{Index, WORK};

impl PlainSearch {
    /// An index that means nothing.
    pub fn new() -> PlainSearch
        ensures { meaning_of result ≡ nothing }
    {
        PlainSearch { successors: None }
    }
}

impl Index for PlainSearch {
    const CAPACITY: u16 = 2048;

    ghost CAPACITY = { 2048 };

    ghost meaning = { meaning_of };

    ghost refuses = { λ _. rule 2048 };

    ghost shows = { Shows };

    ghost small = { Prim.search rules };

    ghost rules = { Prim.search rules };

    fn build(&mut self, book: &Book, work: &mut [u16]) -> Result<(), IndexFault> {
        if work.len() < WORK {
            return Err(IndexFault::WorkTooShort);
        }
        self.successors
            .get_or_insert_with(Successors::none)
            .fill(book);
        Ok(())
    }

    fn leads(&self, u: u16, v: u16) -> bool {
        self.successors
            .as_ref()
            .is_some_and(|kept| kept.leads(u, v))
    }

    fn clear(&mut self) {
        self.successors = None;
    }
}
