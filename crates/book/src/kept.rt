//! The book as it is kept.
ghost use Rattle.std.specs.Prelude.{◌≡◌, ◌≤◌, true, take};
ghost use Rattle.rising.specs.Lists.{rising};
ghost use Rattle.book.specs.Order.{by_models};
ghost use Rattle.book.specs.Counts.{models};
ghost use Rattle.book.specs.Derivations.{all_proper};

use crate::count::Count;
use crate::derivation::Derivation;

pub mod changing;
pub mod reading;

/// At most 2,048 derivations between the models of a count: the first `len` of the places, rising.
/// The places are an array, and not an array vector, since the ordered list is lent the room behind it too.
/// The book is stale until it is marked as indexed, and again after each change.
#[derive(Drop)]
pub struct Book {
    count: Count,
    places: [Derivation; 2048],
    len: usize,
    stale: bool,
    ghost few: { len ≤ 2048 },
    ghost rises: { rising by_models (take len places) ≡ true },
    ghost proper: { all_proper (models count) (take len places) ≡ true },
}
