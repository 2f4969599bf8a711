//! The call that takes any call.
ghost use Rattle.std.specs.Prelude.{◌≡◌, length};
ghost use Rattle.shop.specs.Shops.{Keeps};
ghost use Rattle.shop.specs.Runs.{asks_for, Serves};

use crate::running::Shop;
use history::answer::{Answer, Outcome};
use history::call::Call;
use index::kind::Index;

// How many numbers of work space a call asks for.
fn asked(call: Call) -> usize
    ensures { result ≡ asks_for call }
{
    match call {
        Call::Index { work } => work,
        _ => 0,
    }
}

impl<I: Index> Shop<I> {
    // Makes a call, of which an indexing has the work space that it asks for.
    fn make(&mut self, call: Call, work: &mut [u16]) -> Answer
        requires { length work.old ≡ asks_for call }
        ensures { Keeps I.Index.meaning I.Index.refuses self.old call result self.new }
    {
        match call {
            Call::Enter(derivation) => self.enter(derivation)?,
            Call::Strike(derivation) => self.strike(derivation)?,
            Call::Index { .. } => self.reindex(work)?,
            Call::Hold { model, holder } => self.hold(model, holder)?,
            Call::Release { model, holder } => self.release(model, holder)?,
            Call::Order { model } => return Ok(self.order(model)?.into()),
        }
        Ok(Outcome::Done)
    }

    /// Makes a call and tells its answer. None, and the shop is as it was, if the call asks for more work space than is lent.
    pub fn serve(&mut self, call: Call, work: &mut [u16]) -> Option<Answer>
        ensures { Serves I.Index.meaning I.Index.refuses self.old call (length work.old) result self.new }
    {
        let asked = asked(call);
        if asked > work.len() {
            return None;
        }
        Some(self.make(call, &mut work[..asked]))
    }
}
