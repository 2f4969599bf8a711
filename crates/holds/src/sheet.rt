//! The sheet and its records.
ghost use Rattle.std.specs.Prelude.{◌≡◌, ◌≤◌, true, length};
ghost use Rattle.holds.specs.Holds.{apart};

use arrayvec::ArrayVec;

pub mod changing;
pub mod reading;

/// A model is on hold, and only its holder releases it.
#[derive(Clone, Copy, Debug, Default, PartialEq, Eq)]
pub struct Hold {
    pub model: u16,
    pub holder: u16,
}

/// At most 64 holds, at most one on a model, in the order in which they were placed.
#[derive(Drop)]
pub struct HoldSheet {
    holds: ArrayVec<Hold, 64>,
    ghost few: { length holds.items ≤ 64 },
    ghost apart: { apart holds.items ≡ true },
}
