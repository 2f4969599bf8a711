//! Why an indexing is refused.
ghost use Rattle.std.specs.Prelude.{◌≡◌};
ghost use Rattle.index.specs.Faults.{number};

/// Why an indexing is refused.
#[derive(Clone, Copy, Debug, PartialEq, Eq)]
pub enum IndexFault {
    /// The work space is shorter than an indexing needs.
    WorkTooShort,
    /// The book's surplus, as it was found, is above the kind's capacity.
    TooMuchSurplus { found: u16, capacity: u16 },
}

impl IndexFault {
    /// The number that the fault is told by.
    pub fn number(self) -> u8
        ensures { result ≡ number self }
    {
        match self {
            IndexFault::WorkTooShort => 7,
            IndexFault::TooMuchSurplus { .. } => 8,
        }
    }
}
