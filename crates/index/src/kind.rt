//! A kind of index.
ghost use Rattle.std.specs.Prelude.{◌≡◌, ℕ, ◌≤◌, Bool, length, Option, Result};
ghost use Rattle.book.specs.Counts.{models};
ghost use Rattle.book.specs.Derivations.{taken_from};
ghost use Rattle.book.specs.Books.{standing, count_of};
ghost use Rattle.index.specs.declared.fault.IndexFault.{IndexFault};
ghost use Rattle.index.specs.Meanings.{Meaning, nothing, tells};
ghost use Rattle.index.specs.Builds.{rule, Builds};

use crate::fault::IndexFault;
use book::kept::Book;

/// How many numbers of 16 bits an indexing works in.
pub const WORK: usize = 32768;

/// An index answers who leads to whom in the book that it was last built from.
pub trait Index {
    /// The largest surplus that the kind takes, at most 2,048.
    const CAPACITY: u16;

    ghost CAPACITY: { ℕ };

    /// What an index means: nothing, or a count and a relation on the models below it.
    ghost meaning: { Self → Meaning };

    /// What an indexing of a book of n models with the test R, in so many numbers of work space, is refused with.
    ghost refuses: { Self → ℕ → (ℕ → ℕ → Bool) → ℕ → Option IndexFault };

    /// What the kind's own calls show after a build, by the index before and after it.
    ghost shows: { Self → ℕ → (ℕ → ℕ → Bool) → Result (Unit {0}) IndexFault → Self → Type 0 } = { λ _ _ _ _ _. Unit {0} };

    /// Builds the index from a book, in the work space, which may end with leftovers.
    fn build(&mut self, book: &Book, work: &mut [u16]) -> Result<(), IndexFault>
        ensures builds { Builds (refuses self.old (models (count_of book.now)) (taken_from (standing book.now)) (length work.old)) (models (count_of book.now)) (taken_from (standing book.now)) (meaning self.old) result (meaning self.new) }
        ensures refuses { refuses self.new ≡ refuses self.old }
        ensures shows { shows self.old (models (count_of book.now)) (taken_from (standing book.now)) result self.new };

    /// Whether u leads to v.
    fn leads(&self, u: u16, v: u16) -> bool
        ensures { result ≡ tells (meaning self.now) u v };

    /// Makes the index mean nothing.
    fn clear(&mut self)
        ensures meaning { meaning self.new ≡ nothing }
        ensures refuses { refuses self.new ≡ refuses self.old };

    ghost small: { CAPACITY ≤ 2048 };

    ghost rules: { (s : Self) (n : ℕ) (R : ℕ → ℕ → Bool) (k : ℕ) → refuses s n R k ≡ rule CAPACITY n R k };
}
