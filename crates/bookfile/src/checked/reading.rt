//! What a checked book file shows.
ghost use Rattle.std.specs.Prelude.{◌≡◌, length};
ghost use Rattle.std.specs.List.{slice_get};
ghost use Rattle.bookfile.specs.Checked.{count_shown, shown, left};

use crate::checked::BookFile;
use crate::checked::derivations::Derivations;
use book::derivation::Derivation;

impl BookFile<'_> {
    /// The count of models.
    pub fn models(&self) -> u16
        ensures { result ≡ count_shown self.now }
    {
        self.models
    }

    /// How many derivations there are.
    pub fn len(&self) -> usize
        ensures { result ≡ length (shown self.now) }
    {
        self.firsts.len().min(self.seconds.len()) / 2
    }

    /// The derivations in turn.
    pub fn derivations(&self) -> Derivations<'_>
        ensures { left result ≡ shown self.now }
    {
        Derivations {
            firsts: self.firsts,
            seconds: self.seconds,
        }
    }

    /// The derivation at a place from 0, or none behind the last.
    pub fn at(&self, place: usize) -> Option<Derivation>
        ensures { result ≡ slice_get (shown self.now) place }
    {
        let (firsts, _) = self.firsts.as_chunks::<2>();
        let (seconds, _) = self.seconds.as_chunks::<2>();
        let from = firsts.get(place)?;
        let to = seconds.get(place)?;
        Some(Derivation {
            from: u16::from_le_bytes(*from),
            to: u16::from_le_bytes(*to),
        })
    }
}
