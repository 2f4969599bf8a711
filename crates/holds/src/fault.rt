//! Why a hold is not placed, or not released.
ghost use Rattle.std.specs.Prelude.{◌≡◌};
ghost use Rattle.holds.specs.Faults.{number};

#[derive(Clone, Copy, Debug, PartialEq, Eq)]
pub enum HoldFault {
    OnHold = 9,
    SheetFull = 10,
    NotOnHold = 11,
    AnothersHold = 12,
}

impl HoldFault {
    /// The number that the fault is told by.
    pub fn number(self) -> u8
        ensures { result ≡ number self }
    {
        self as u8
    }
}
