//! Checking the bytes of a book file.
ghost use Rattle.std.specs.Prelude.{None};
ghost use Rattle.book.specs.Counts.{models};
ghost use Rattle.book.specs.Refusals.{Answers};
ghost use Rattle.bookfile.specs.Table.{place_refusal, places_refusal, file_refusal};
ghost use Rattle.bookfile.specs.Checked.{left, Reads, Accepts, Splits};

use crate::checked::BookFile;
use crate::checked::derivations::Derivations;
use crate::refusal::FileRefusal;
use book::count::Count;
use book::derivation::Derivation;

// Refuses one derivation, behind the one before it.
fn check_place(
    count: Count,
    before: Option<Derivation>,
    derivation: Derivation,
) -> Result<(), FileRefusal>
    ensures { Answers (place_refusal (models count) before derivation) result }
{
    derivation.check(count)?;
    if before.is_none_or(|last| last < derivation) {
        Ok(())
    } else {
        Err(FileRefusal::NotRising)
    }
}

// Refuses the first derivation that is not in order, place by place.
fn check_places(count: Count, derivations: Derivations<'_>) -> Result<(), FileRefusal>
    ensures { Answers (places_refusal (models count) None (left derivations.entry)) result }
{
    let mut before = None;
    for derivation in derivations {
        check_place(count, before, derivation)?;
        before = Some(derivation);
    }
    Ok(())
}

// Checks what stands behind the two sizes.
fn check_sizes(models: u16, len: u16, rest: &[u8]) -> Result<BookFile<'_>, FileRefusal>
    ensures { Splits models len rest.now result }
{
    let count = Count::new(models)?;
    if len > 2048 {
        return Err(FileRefusal::TooMany);
    }
    let half = 2 * len as usize;
    if rest.len() != 2 * half {
        return Err(FileRefusal::WrongLength);
    }
    let (firsts, seconds) = rest.split_at(half);
    check_places(count, Derivations { firsts, seconds })?;
    Ok(BookFile {
        models,
        firsts,
        seconds,
    })
}

/// Checks the bytes of a book file.
pub fn check(bytes: &[u8]) -> Result<BookFile<'_>, FileRefusal>
    ensures table { Answers (file_refusal bytes.now) result }
    ensures accepts { Accepts bytes.now result }
    ensures reads { Reads bytes.now result }
{
    let [n0, n1, d0, d1, rest @ ..] = bytes else {
        return Err(FileRefusal::WrongLength);
    };
    let models = u16::from_le_bytes([*n0, *n1]);
    let len = u16::from_le_bytes([*d0, *d1]);
    check_sizes(models, len, rest)
}
