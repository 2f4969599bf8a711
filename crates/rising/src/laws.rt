//! What the words of the contracts mean, as laws.
ghost use Rattle.rising.specs.Laws.{Laws};

use crate::key::Key;

/// Of any type of key, the laws hold. They are the whole of what this call gives.
pub fn laws_hold<K: Key>(_key: K)
    ensures { Laws K.cmp }
{}
