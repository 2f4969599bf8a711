//! The calls made on a shop.
use book::derivation::Derivation;

/// A call with its numbers. An indexing is lent `work` numbers of work space.
#[derive(Clone, Copy, Debug, PartialEq, Eq)]
pub enum Call {
    Enter(Derivation),
    Strike(Derivation),
    Index { work: usize },
    Hold { model: u16, holder: u16 },
    Release { model: u16, holder: u16 },
    Order { model: u16 },
}
