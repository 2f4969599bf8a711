//! An ordered list in memory that is lent to it.
ghost use Rattle.std.specs.Prelude.{◌≡◌, take};
ghost use Rattle.rising.specs.Lists.{Sound};
ghost use Rattle.rising.specs.Outcomes.{Finds, FindsAnywhere, Adds, Removes, AddsAnywhere, RemovesAnywhere, longer, shorter};

use crate::key::Key;
use crate::lent;
use crate::lent::{NotAdded, NotThere};

/// The first `len` of `keys` are the list. The memory is lent, and the room behind the list is lent with it.
#[derive(Drop)]
pub struct OrderedList<'a, K: Key> {
    pub keys: &'a mut [K],
    pub len: usize,
}

impl<'a, K: Key> OrderedList<'a, K> {
    /// How many keys the list has.
    pub fn len(&self) -> usize
        ensures { result ≡ self.now.len }
    {
        self.len // of the list, not of the memory
    }

    /// The place of `key`, from 0.
    pub fn find(&self, key: K) -> Option<usize>
        ensures finds { Sound K.cmp self.now.keys.now self.now.len → Finds (take self.now.len self.now.keys.now) key result }
        ensures anywhere { FindsAnywhere K.cmp self.now.keys.now self.now.len key result }
    {
        lent::find_front(self.keys, self.len, key)
    }

    /// Adds `key`.
    pub fn add(&mut self, key: K) -> Result<(), NotAdded>
        ensures lender { self.new.keys.ghost_name ≡ self.old.keys.ghost_name }
        ensures len { self.new.len ≡ longer result self.old.len }
        ensures adds { Sound K.cmp self.old.keys.now self.old.len → Adds K.cmp self.old.keys.now self.old.len key result self.new.keys.now }
        ensures anywhere { AddsAnywhere K.cmp self.old.keys.now self.old.len key result self.new.keys.now }
    {
        lent::add(self.keys, self.len, key)?;
        self.len += 1;
        Ok(())
    }

    /// Removes `key`.
    pub fn remove(&mut self, key: K) -> Result<(), NotThere>
        ensures lender { self.new.keys.ghost_name ≡ self.old.keys.ghost_name }
        ensures len { self.new.len ≡ shorter result self.old.len }
        ensures removes { Sound K.cmp self.old.keys.now self.old.len → Removes K.cmp self.old.keys.now self.old.len key result self.new.keys.now }
        ensures anywhere { RemovesAnywhere K.cmp self.old.keys.now self.old.len key result self.new.keys.now }
    {
        lent::remove(self.keys, self.len, key)?;
        self.len -= 1;
        Ok(())
    }
}
