//! Writing a book file.
ghost use Rattle.std.specs.Prelude.{◌≡◌, ℕ, ◌+◌, ◌*◌, ◌≤◌, length};
ghost use Rattle.book.specs.declared.derivation.Derivation.{Derivation};
ghost use Rattle.book.specs.Counts.{models};
ghost use Rattle.book.specs.Books.{standing, count_of};
ghost use Rattle.bookfile.specs.Files.{column};
ghost use Rattle.bookfile.specs.Writing.{Writes, ReadsBack};
ghost use Rattle.text.specs.Placing.{placed};

use crate::refusal::WriteRefusal;
use crate::words::put_word;
use book::derivation::Derivation;
use book::kept::Book;

// Writes one model of each derivation, and tells where they end.
fn put_column<F: Fn(Derivation) -> u16>(
    out: &mut [u8],
    at: usize,
    derivations: &[Derivation],
    model: F,
) -> usize
    requires room { at + 2 * length derivations.now ≤ length out.old }
    requires callable { F.IsAlwaysCallable model }
    ensures end { result ≡ at + 2 * length derivations.now }
    ensures bytes { (f : Derivation → ℕ) → ((d : Derivation) (n : ℕ) → F.post model d n → n ≡ f d) → out.new ≡ placed out.old at (column f derivations.now) }
{
    let mut end = at;
    for derivation in derivations {
        end = put_word(out, end, model(*derivation));
    }
    end
}

/// Writes the file of a book into the front of `out`, and tells how many bytes it has.
pub fn write(book: &Book, out: &mut [u8]) -> Result<usize, WriteRefusal>
    ensures writes { Writes (models (count_of book.now)) (standing book.now) out.old result out.new }
    ensures reads_back { ReadsBack (models (count_of book.now)) (standing book.now) result out.new }
{
    let derivations = book.derivations();
    let len = derivations.len();
    if out.len() < 4 + 4 * len {
        return Err(WriteRefusal::TooShort);
    }
    let models = put_word(out, 0, book.count().models());
    let sizes = put_word(out, models, len as u16);
    let firsts = put_column(out, sizes, derivations, |derivation| derivation.from);
    Ok(put_column(out, firsts, derivations, |derivation| derivation.to))
}
