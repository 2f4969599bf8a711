//! What a hold sheet shows.
ghost use Rattle.std.specs.Prelude.{◌≡◌, ◌==◌, length, position};
ghost use Rattle.holds.specs.Holds.{holder_of};
ghost use Rattle.holds.specs.Sheets.{standing};

use crate::sheet::{Hold, HoldSheet};

impl HoldSheet {
    /// The holds that stand, oldest first.
    pub fn holds(&self) -> &[Hold]
        ensures { result.now ≡ standing self.now }
    {
        self.holds.as_slice()
    }

    /// How many holds stand.
    pub fn len(&self) -> usize
        ensures { result ≡ length (standing self.now) }
    {
        self.holds.len()
    }

    // The place of the hold on a model.
    pub(super) fn place_of(&self, model: u16) -> Option<usize>
        ensures { result ≡ position (λ h. h.model == model) (standing self.now) }
    {
        self.holds().iter().position(|hold| hold.model == model)
    }

    /// The holder of a model, if it is on hold.
    pub fn holder(&self, model: u16) -> Option<u16>
        ensures { result ≡ holder_of (standing self.now) model }
    {
        let at = self.place_of(model)?;
        Some(self.holds()[at].holder)
    }
}
