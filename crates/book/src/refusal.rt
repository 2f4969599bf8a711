//! Why a count, an entry or a strike is refused.
ghost use Rattle.std.specs.Prelude.{◌≡◌};
ghost use Rattle.book.specs.declared.refusal.Refusal.TheVariants.{DoesNotStand};
ghost use Rattle.book.specs.Refusals.{number, not_added};

use rising::lent::{NotAdded, NotThere};

/// A refusal, told by its number.
#[derive(Clone, Copy, Debug, PartialEq, Eq)]
pub enum Refusal {
    CountOutOfRange = 1,
    NoSuchModel = 2,
    FromItself = 3,
    StandsAlready = 4,
    BookFull = 5,
    DoesNotStand = 6,
}

impl Refusal {
    /// The number that the refusal is told by.
    pub fn number(self) -> u8
        ensures { result ≡ number self }
    {
        self as u8
    }
}

impl From<NotAdded> for Refusal {
    ghost from_gives = { λ e r. r ≡ not_added e };

    fn from(refusal: NotAdded) -> Refusal {
        match refusal {
            NotAdded::StandsAlready => Refusal::StandsAlready,
            NotAdded::Full => Refusal::BookFull,
        }
    }
}

impl From<NotThere> for Refusal {
    ghost from_gives = { λ _ r. r ≡ DoesNotStand };

    fn from(_refusal: NotThere) -> Refusal {
        Refusal::DoesNotStand
    }
}
