//! Orders.
ghost use Rattle.std.specs.Prelude.{◌≡◌};
ghost use Rattle.history.specs.declared.call.Call.TheVariants as asked;
ghost use Rattle.shop.specs.Shops.{outcome, ruled, bars_in, LowestOf, Keeps};

use crate::running::Shop;
use history::answer::{Named, Outcome};
use history::fault::ShopFault;
use index::kind::Index;

/// What an order comes to that is not refused. In an `Option`, None would have to mean carve.
#[derive(Clone, Copy, Debug, PartialEq, Eq)]
pub enum Verdict {
    Carve,
    Stop(Named),
}

impl From<Verdict> for Outcome {
    ghost from_gives = { λ v r. r ≡ outcome v };

    fn from(verdict: Verdict) -> Outcome {
        match verdict {
            Verdict::Carve => Outcome::Carve,
            Verdict::Stop(named) => Outcome::Stop(named),
        }
    }
}

impl<I: Index> Shop<I> {
    // Which held model a stop names: the lowest of those that lead to the model.
    fn lowest(&self, model: u16) -> Option<u16>
        ensures { LowestOf (bars_in I.Index.meaning self.now model) result }
    {
        self.sheet
            .holds()
            .iter()
            .map(|hold| hold.model)
            .filter(|held| self.index.leads(*held, model))
            .reduce(|low, held| low.min(held))
    }

    /// Answers an order for a model: carve, or stop with the held model that is named.
    pub fn order(&self, model: u16) -> Result<Verdict, ShopFault>
        ensures { Keeps I.Index.meaning I.Index.refuses self.now (asked.Order model) (ruled result) self.now }
    {
        self.check_model(model)?;
        if self.book.stale() {
            return Err(ShopFault::Stale);
        }
        match self.lowest(model) {
            None => Ok(Verdict::Carve),
            Some(model) => Ok(Verdict::Stop(Named { model })),
        }
    }
}
