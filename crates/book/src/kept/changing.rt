//! Making a book, entering, striking, and the mark of staleness.
ghost use Rattle.std.specs.Prelude.{◌≡◌, true, false, []};
ghost use Rattle.book.specs.Books.{standing, count_of, is_stale, Enters, Strikes};

use crate::count::Count;
use crate::derivation::Derivation;
use crate::kept::Book;
use crate::refusal::Refusal;
use rising::list::OrderedList;

impl Book {
    /// An empty book, stale.
    pub fn new(count: Count) -> Book
        ensures standing { standing result ≡ [] }
        ensures count { count_of result ≡ count }
        ensures stale { is_stale result ≡ true }
    {
        Book {
            count,
            places: [Derivation { from: 0, to: 0 }; 2048],
            len: 0,
            stale: true,
        }
    }

    /// Enters `derivation`.
    pub fn enter(&mut self, derivation: Derivation) -> Result<(), Refusal>
        ensures { Enters self.old derivation result self.new }
    {
        derivation.check(self.count)?;
        let mut list = OrderedList {
            keys: &mut self.places,
            len: self.len,
        };
        list.add(derivation)?;
        self.len = list.len();
        self.stale = true; // an index does not know it yet
        Ok(())
    }

    /// Strikes `derivation`.
    pub fn strike(&mut self, derivation: Derivation) -> Result<(), Refusal>
        ensures { Strikes self.old derivation result self.new }
    {
        derivation.check_models(self.count)?;
        let mut list = OrderedList {
            keys: &mut self.places,
            len: self.len,
        };
        list.remove(derivation)?;
        self.len = list.len();
        self.stale = true; // an index still knows it
        Ok(())
    }

    /// Marks the book as indexed.
    pub fn mark_indexed(&mut self)
        ensures stale { is_stale self.new ≡ false }
        ensures standing { standing self.new ≡ standing self.old }
        ensures count { count_of self.new ≡ count_of self.old }
    {
        self.stale = false;
    }
}
