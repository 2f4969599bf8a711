//! Keys, whose order tells each from every other.
ghost use Rattle.rising.specs.Order.{Order};
ghost use Rattle.std.proofs.Common.{rules};

/// A key: its order is total, and a key equals itself alone.
pub trait Key: Ord + Copy {
    ghost order: { Order Self.cmp };
}

/// A coordinate, a number of 16 bits, is a key by its size.
impl Key for u16 {
    ghost order = { Prim.search rules };
}
