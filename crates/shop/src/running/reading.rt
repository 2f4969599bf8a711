//! What a shop shows, by its history.
ghost use Rattle.std.specs.Prelude.{◌≡◌, true};
ghost use Rattle.book.specs.Counts.{models};
ghost use Rattle.book.specs.Books.{standing, count_of};
ghost use Rattle.index.specs.Meanings.{Means};
ghost use Rattle.history.specs.Standing.{stands, current as is_current};
ghost use Rattle.history.specs.Table.{how_many_stand, how_many_held};
ghost use Rattle.history.specs.Lists.{book_of};
ghost use Rattle.shop.specs.Shops.{index_in, book_in, Says};

use crate::running::Shop;
use book::count::Count;
use book::kept::Book;
use index::kind::Index;

impl<I: Index> Shop<I> {
    /// The count of models.
    pub fn count(&self) -> Count
        ensures { Says I.Index.meaning I.Index.refuses self.now (λ n es. models result ≡ n) }
    {
        self.book.count()
    }

    /// How many derivations stand.
    pub fn derivations(&self) -> usize
        ensures { Says I.Index.meaning I.Index.refuses self.now (λ n es. result ≡ how_many_stand n es) }
    {
        self.book.len()
    }

    /// How many models are held.
    pub fn holds(&self) -> usize
        ensures { Says I.Index.meaning I.Index.refuses self.now (λ n es. result ≡ how_many_held n es) }
    {
        self.sheet.len()
    }

    /// Whether the index is current.
    pub fn current(&self) -> bool
        ensures { Says I.Index.meaning I.Index.refuses self.now (λ n es. result ≡ is_current es) }
    {
        !self.book.stale()
    }

    /// The book.
    pub fn book(&self) -> &Book
        ensures value { result.now ≡ book_in self.now }
        ensures history { Says I.Index.meaning I.Index.refuses self.now (λ n es. (models (count_of result.now) ≡ n) × (standing result.now ≡ book_of es)) }
    {
        &self.book
    }

    /// The index, for the kind's own calls. While it is current it means what stands.
    pub fn index(&self) -> &I
        ensures value { result.now ≡ index_in self.now }
        ensures history { Says I.Index.meaning I.Index.refuses self.now (λ n es. (is_current es ≡ true → Means (I.Index.meaning result.now) n (stands es))) }
    {
        &self.index
    }
}
