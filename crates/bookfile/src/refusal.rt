//! Why a book file is refused, and why one is not written.
ghost use Rattle.std.specs.Prelude.{◌≡◌};
ghost use Rattle.bookfile.specs.declared.refusal.FileRefusal.TheVariants.{Book};
ghost use Rattle.bookfile.specs.Refusals.{number, write_number};

use book::refusal::Refusal;

/// Why a file is no book file.
#[derive(Clone, Copy, Debug, PartialEq, Eq)]
pub enum FileRefusal {
    /// What the book itself refuses: its count, a model, or a derivation from itself.
    Book(Refusal),
    WrongLength,
    TooMany,
    NotRising,
}

impl FileRefusal {
    /// The number that the refusal is told by.
    pub fn number(self) -> u8
        ensures { result ≡ number self }
    {
        match self {
            FileRefusal::Book(refusal) => refusal.number(),
            FileRefusal::WrongLength => 14,
            FileRefusal::TooMany => 15,
            FileRefusal::NotRising => 16,
        }
    }
}

impl From<Refusal> for FileRefusal {
    ghost from_gives = { λ e r. r ≡ Book e };

    fn from(refusal: Refusal) -> FileRefusal {
        FileRefusal::Book(refusal)
    }
}

/// Why a book file is not written.
#[derive(Clone, Copy, Debug, PartialEq, Eq)]
pub enum WriteRefusal {
    TooShort = 17,
}

impl WriteRefusal {
    /// The number that the refusal is told by.
    pub fn number(self) -> u8
        ensures { result ≡ write_number self }
    {
        self as u8
    }
}
