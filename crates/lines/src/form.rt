//! What an order line says.
ghost use Rattle.std.specs.Prelude.{◌≡◌};
ghost use Rattle.lines.specs.Forms.{call_of};

use book::derivation::Derivation;
use history::call::Call;

/// A call with its numbers, and no work space: that is not written in a line. Of one type with `Call`, the line `I` would be `Index { work: () }`.
#[derive(Clone, Copy, Debug, PartialEq, Eq)]
pub enum Form {
    Enter(Derivation),
    Strike(Derivation),
    Index,
    Hold { model: u16, holder: u16 },
    Release { model: u16, holder: u16 },
    Order { model: u16 },
}

impl Form {
    /// The call, of which an indexing is lent `work` numbers of work space.
    pub fn call(self, work: usize) -> Call
        ensures { result ≡ call_of work self }
    {
        match self {
            Form::Enter(derivation) => Call::Enter(derivation),
            Form::Strike(derivation) => Call::Strike(derivation),
            Form::Index => Call::Index { work },
            Form::Hold { model, holder } => Call::Hold { model, holder },
            Form::Release { model, holder } => Call::Release { model, holder },
            Form::Order { model } => Call::Order { model },
        }
    }
}
