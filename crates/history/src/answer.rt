//! What a shop answers.
ghost use Rattle.std.specs.Prelude.{◌≡◌};
ghost use Rattle.history.specs.Answers.{carved, named, refused, told};

use crate::fault::ShopFault;

/// The held model that a stop names.
#[derive(Clone, Copy, Debug, PartialEq, Eq)]
pub struct Named {
    pub model: u16,
}

/// What a call that is not refused comes to: an order is carved or stopped, any other call is done.
#[derive(Clone, Copy, Debug, PartialEq, Eq)]
pub enum Outcome {
    Done,
    Carve,
    Stop(Named),
}

/// The answer to a call: its outcome, or the fault that it is refused with.
pub type Answer = Result<Outcome, ShopFault>;

/// Whether the answer is carve.
pub fn carved(answer: Answer) -> bool
    ensures { result ≡ carved answer }
{
    matches!(answer, Ok(Outcome::Carve))
}

/// The model that a stop names.
pub fn named_model(answer: Answer) -> Option<u16>
    ensures { result ≡ named answer }
{
    match answer {
        Ok(Outcome::Stop(stop)) => Some(stop.model),
        _ => None,
    }
}

/// The fault that the call was refused with.
pub fn refused(answer: Answer) -> Option<ShopFault>
    ensures { result ≡ refused answer }
{
    answer.err()
}

/// The number of the refusal.
pub fn number(answer: Answer) -> Option<u8>
    ensures { result ≡ (told answer).number }
{
    refused(answer).map(ShopFault::number)
}
