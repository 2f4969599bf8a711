//! The whole way round: a file checked, its derivations entered in turn into a new book, and that book written.
ghost use Rattle.std.specs.Prelude.{◌≡◌};
ghost use Rattle.bookfile.specs.declared.copying.CopyRefusal.TheVariants.{Check, Enter, Write};
ghost use Rattle.bookfile.specs.Copying.{copy_number, Copies};

use crate::checked::checking::check;
use crate::refusal::{FileRefusal, WriteRefusal};
use crate::writing::write;
use book::refusal::Refusal;

/// Why a file was not copied.
#[derive(Clone, Copy, Debug, PartialEq, Eq)]
pub enum CopyRefusal {
    Check(FileRefusal),
    Enter(Refusal),
    Write(WriteRefusal),
}

impl CopyRefusal {
    /// The number that the refusal is told by.
    pub fn number(self) -> u8
        ensures { result ≡ copy_number self }
    {
        match self {
            CopyRefusal::Check(refusal) => refusal.number(),
            CopyRefusal::Enter(refusal) => refusal.number(),
            CopyRefusal::Write(refusal) => refusal.number(),
        }
    }
}

impl From<FileRefusal> for CopyRefusal {
    ghost from_gives = { λ e r. r ≡ Check e };

    fn from(refusal: FileRefusal) -> CopyRefusal {
        CopyRefusal::Check(refusal)
    }
}

impl From<Refusal> for CopyRefusal {
    ghost from_gives = { λ e r. r ≡ Enter e };

    fn from(refusal: Refusal) -> CopyRefusal {
        CopyRefusal::Enter(refusal)
    }
}

impl From<WriteRefusal> for CopyRefusal {
    ghost from_gives = { λ e r. r ≡ Write e };

    fn from(refusal: WriteRefusal) -> CopyRefusal {
        CopyRefusal::Write(refusal)
    }
}

/// Copies a book file by way of a book: the same bytes.
pub fn copy(bytes: &[u8], out: &mut [u8]) -> Result<usize, CopyRefusal>
    ensures { Copies bytes.now out.old result out.new }
{
    let file = check(bytes)?;
    let book = file.to_book()?;
    let len = write(&book, out)?;
    Ok(len)
}
