//! Why a line is refused.
ghost use Rattle.std.specs.Prelude.{◌≡◌};
ghost use Rattle.lines.specs.Faults.{number, layer};
ghost use Rattle.lines.specs.declared.fault.LineFault.TheVariants.{Shop as OfShop};

use history::fault::ShopFault;

/// The buffer for the answer is too short; the line has no form; or the fault of the shop, whole.
#[derive(Clone, Copy, Debug, PartialEq, Eq)]
pub enum LineFault {
    OutputTooShort,
    NoForm,
    Shop(ShopFault),
}

/// Where a fault comes from.
#[derive(Clone, Copy, Debug, PartialEq, Eq)]
pub enum Layer {
    Line,
    Index,
    Shop,
}

impl LineFault {
    /// The number that the fault is told by.
    pub fn number(self) -> u8
        ensures { result ≡ number self }
    {
        match self {
            LineFault::OutputTooShort => 17,
            LineFault::NoForm => 18,
            LineFault::Shop(fault) => fault.number(),
        }
    }

    /// The layer that found the fault.
    pub fn layer(self) -> Layer
        ensures { result ≡ layer self }
    {
        match self {
            LineFault::OutputTooShort | LineFault::NoForm => Layer::Line,
            LineFault::Shop(ShopFault::Index(_)) => Layer::Index,
            LineFault::Shop(ShopFault::Book(_) | ShopFault::Hold(_) | ShopFault::Stale) => {
                Layer::Shop
            }
        }
    }
}

impl From<ShopFault> for LineFault {
    ghost from_gives = { λ e r. r ≡ OfShop e };

    fn from(fault: ShopFault) -> LineFault {
        LineFault::Shop(fault)
    }
}
