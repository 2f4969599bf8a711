//! Why a shop refuses a call.
ghost use Rattle.std.specs.Prelude.{◌≡◌};
ghost use Rattle.history.specs.Faults.{number};
ghost use Rattle.history.specs.declared.fault.ShopFault.TheVariants.{Book as OfBook, Index as OfIndex, Hold as OfHold};

use book::refusal::Refusal;
use holds::fault::HoldFault;
use index::fault::IndexFault;

/// The fault of the part that refused, whole; or that the index is not current.
#[derive(Clone, Copy, Debug, PartialEq, Eq)]
pub enum ShopFault {
    Book(Refusal),
    Index(IndexFault),
    Hold(HoldFault),
    Stale,
}

impl ShopFault {
    /// The number that the fault is told by.
    pub fn number(self) -> u8
        ensures { result ≡ number self }
    {
        match self {
            ShopFault::Book(refusal) => refusal.number(),
            ShopFault::Index(fault) => fault.number(),
            ShopFault::Hold(fault) => fault.number(),
            ShopFault::Stale => 13,
        }
    }
}

impl From<Refusal> for ShopFault {
    ghost from_gives = { λ e r. r ≡ OfBook e };

    fn from(refusal: Refusal) -> ShopFault {
        ShopFault::Book(refusal)
    }
}

impl From<IndexFault> for ShopFault {
    ghost from_gives = { λ e r. r ≡ OfIndex e };

    fn from(fault: IndexFault) -> ShopFault {
        ShopFault::Index(fault)
    }
}

impl From<HoldFault> for ShopFault {
    ghost from_gives = { λ e r. r ≡ OfHold e };

    fn from(fault: HoldFault) -> ShopFault {
        ShopFault::Hold(fault)
    }
}
