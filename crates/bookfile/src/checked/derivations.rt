//! The derivations of a book file, one after another.
ghost use Rattle.std.specs.Iterator.{YieldsFirst, item_count};
ghost use Rattle.bookfile.specs.Checked.{left};

use crate::words::take_word;
use book::derivation::Derivation;

/// The derivations that are left of the two arrays.
#[derive(Drop)]
pub struct Derivations<'a> {
    pub(super) firsts: &'a [u8],
    pub(super) seconds: &'a [u8],
}

impl Iterator for Derivations<'_> {
    type Item = Derivation;

    ghost next_gives = { YieldsFirst left };

    ghost remaining = { item_count left };

    fn next(&mut self) -> Option<Derivation> {
        let (from, firsts) = take_word(self.firsts)?;
        let (to, seconds) = take_word(self.seconds)?;
        self.firsts = firsts;
        self.seconds = seconds;
        Some(Derivation { from, to })
    }
}
