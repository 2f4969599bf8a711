//! A derivation, and its order.
ghost use Rattle.std.proofs.Common.{rules};

use rising::key::Key;

pub mod checked;

/// The model `to` was taken from the model `from`. Derivations are ordered by the first model, then by the second.
#[derive(Clone, Copy, Debug, PartialEq, Eq, PartialOrd, Ord)]
pub struct Derivation {
    pub from: u16,
    pub to: u16,
}

impl Key for Derivation {
    ghost order = { Prim.search rules };
}
