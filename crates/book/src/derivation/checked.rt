//! Which derivations a book can have.
ghost use Rattle.book.specs.Counts.{models};
ghost use Rattle.book.specs.Refusals.{Answers};
ghost use Rattle.book.specs.Derivations.{unknown, improper};

use crate::count::Count;
use crate::derivation::Derivation;
use crate::refusal::Refusal;

impl Derivation {
    /// Refuses a derivation of which a model is not below the count.
    pub fn check_models(self, count: Count) -> Result<(), Refusal>
        ensures { Answers (unknown (models count) self) result }
    {
        count.check(self.from)?;
        count.check(self.to)
    }

    /// Refuses a derivation that no book of the count can have.
    pub fn check(self, count: Count) -> Result<(), Refusal>
        ensures { Answers (improper (models count) self) result }
    {
        self.check_models(count)?;
        if self.from == self.to {
            return Err(Refusal::FromItself);
        }
        Ok(())
    }
}
