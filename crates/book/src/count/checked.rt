//! Checking a count.
ghost use Rattle.std.specs.Prelude.{◌≡◌};
ghost use Rattle.book.specs.Counts.{models, Counts, model_refusal};
ghost use Rattle.book.specs.Refusals.{Answers};

use crate::count::Count;
use crate::refusal::Refusal;

impl Count {
    /// The count of so many models, if a shop can have so many.
    pub fn new(models: u16) -> Result<Count, Refusal>
        ensures { Counts models result }
    {
        if models < 1 || models > 1024 {
            return Err(Refusal::CountOutOfRange);
        }
        Ok(Count { models })
    }

    /// How many models there are.
    pub fn models(self) -> u16
        ensures { result ≡ models self }
    {
        self.models
    }

    /// Refuses a model that is not below the count.
    pub fn check(self, model: u16) -> Result<(), Refusal>
        ensures { Answers (model_refusal (models self) model) result }
    {
        if model >= self.models {
            return Err(Refusal::NoSuchModel);
        }
        Ok(())
    }
}
