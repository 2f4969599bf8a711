//! What a book shows.
ghost use Rattle.std.specs.Prelude.{◌≡◌, length};
ghost use Rattle.std.specs.List.{slice_get};
ghost use Rattle.book.specs.Derivations.{taken_from};
ghost use Rattle.book.specs.Books.{standing, count_of, is_stale};

use crate::count::Count;
use crate::derivation::Derivation;
use crate::kept::Book;
use rising::lent;

impl Book {
    /// The count of models.
    pub fn count(&self) -> Count
        ensures { result ≡ count_of self.now }
    {
        self.count
    }

    /// How many derivations stand.
    pub fn len(&self) -> usize
        ensures { result ≡ length (standing self.now) }
    {
        self.derivations().len()
    }

    /// Whether the book was changed since it was last marked as indexed, or never was.
    pub fn stale(&self) -> bool
        ensures { result ≡ is_stale self.now }
    {
        self.stale
    }

    /// The derivations that stand, rising.
    pub fn derivations(&self) -> &[Derivation]
        ensures { result.now ≡ standing self.now }
    {
        &self.places[0..self.len]
    }

    /// The derivation at a place from 0, or none behind the last.
    pub fn at(&self, place: usize) -> Option<Derivation>
        ensures { result ≡ slice_get (standing self.now) place }
    {
        self.derivations().get(place).copied()
    }

    /// Whether `derivation` stands.
    pub fn has(&self, derivation: Derivation) -> bool
        ensures { result ≡ taken_from (standing self.now) derivation.from derivation.to }
    {
        lent::find(self.derivations(), derivation).is_some()
    }
}
