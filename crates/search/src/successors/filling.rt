//! Making successors, and filling them from a book.
ghost use Rattle.std.specs.Prelude.{◌≡◌, ℕ, false};
ghost use Rattle.book.specs.Books.{standing, count_of};
ghost use Rattle.book.specs.Counts.{models};
ghost use Rattle.book.specs.Derivations.{taken_from};
ghost use Rattle.search.specs.Following.{models_of, follows};

use crate::successors::{Successors, rows};
use book::kept::Book;

impl Successors {
    /// The successors of a book of no models.
    pub fn none() -> Successors
        ensures models { models_of result ≡ 0 }
        ensures follows { (u v : ℕ) → follows result u v ≡ false }
    {
        Successors {
            models: 0,
            targets: [0; 2048],
            starts: [0; 1025],
        }
    }

    /// Takes over the derivations of `book`, whatever was kept before.
    pub fn fill(&mut self, book: &Book)
        ensures models { models_of self.new ≡ models (count_of book.now) }
        ensures follows { (u v : ℕ) → follows self.new u v ≡ taken_from (standing book.now) u v }
    {
        let models = book.count().models();
        let derivations = book.derivations();
        rows::copy_targets(derivations, &mut self.targets);
        rows::cut(derivations, models, &mut self.starts);
        self.models = models;
    }

    /// The successors of `book`.
    pub fn of(book: &Book) -> Successors
        ensures models { models_of result ≡ models (count_of book.now) }
        ensures follows { (u v : ℕ) → follows result u v ≡ taken_from (standing book.now) u v }
    {
        let mut successors = Successors::none();
        successors.fill(book);
        successors
    }
}
