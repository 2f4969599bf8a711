//! Finding, adding and removing among the keys of a slice that is lent.
ghost use Rattle.std.specs.Prelude.{◌≡◌, suc, pred, ◌<◌, ◌≤◌, true, ◌++◌, length, take, drop, IfSome, IfOk};
ghost use Rattle.std.specs.List as list;
ghost use Rattle.std.specs.List.Sorted.{IsSearchInRange};
ghost use Rattle.std.specs.Result.{result_ok};
ghost use Rattle.rising.specs.Lists.{rising, Sound};
ghost use Rattle.rising.specs.Halving.{halving};
ghost use Rattle.rising.specs.Outcomes.{Finds, FindsAnywhere, Gap, Adds, Removes, AddsAnywhere, RemovesAnywhere};

use crate::key::Key;
use std::cmp::Ordering;

/// Why a key was not added.
#[derive(Clone, Copy, Debug, PartialEq, Eq)]
pub enum NotAdded {
    StandsAlready,
    Full,
}

/// The key that was to be removed does not stand.
#[derive(Clone, Copy, Debug, PartialEq, Eq)]
pub struct NotThere;

// Where `key` stands among `keys`, or else where it would go, by halving.
// The library's search promises nothing of keys that do not rise, and `find` promises what this one finds there.
fn seek<K: Key>(keys: &[K], key: K) -> Result<usize, usize>
    ensures within { IsSearchInRange result (length keys.now) }
    ensures halving { result ≡ halving K.cmp keys.now key }
{
    let mut low = 0;
    let mut high = keys.len();
    while low < high {
        let mid = low + (high - low) / 2;
        match keys[mid].cmp(&key) {
            Ordering::Less => low = mid + 1,
            Ordering::Equal => return Ok(mid),
            Ordering::Greater => high = mid,
        }
    }
    Err(low)
}

// Opens a gap at `at` among the first `len`, and puts `key` into it.
fn insert_at<K: Key>(keys: &mut [K], len: usize, at: usize, key: K)
    requires { (at ≤ len) × (len < length keys.old) }
    ensures { keys.new ≡ list.insert (take len keys.old) at key ++ drop (suc len) keys.old }
{
    keys[len] = key;
    keys[at..len + 1].rotate_right(1);
}

// Closes the gap that the key at `at` leaves among the first `len`. The place of the last keeps its key.
fn remove_at<K: Key>(keys: &mut [K], len: usize, at: usize)
    requires { (at < len) × (len ≤ length keys.old) }
    ensures { keys.new ≡ list.remove (take len keys.old) at ++ drop (pred len) keys.old }
{
    let last = keys[len - 1];
    keys[at..len].rotate_left(1);
    keys[len - 1] = last;
}

/// The place of `key` among `keys`, from 0.
pub fn find<K: Key>(keys: &[K], key: K) -> Option<usize>
    ensures within { IfSome result (λ at. at < length keys.now) }
    ensures finds { rising K.cmp keys.now ≡ true → Finds keys.now key result }
    ensures anywhere { result ≡ result_ok (halving K.cmp keys.now key) }
{
    seek(keys, key).ok()
}

// The place of `key` among the first `len` of `keys`.
pub(crate) fn find_front<K: Key>(keys: &[K], len: usize, key: K) -> Option<usize>
    ensures within { IfSome result (λ at. (at < len) × (len ≤ length keys.now)) }
    ensures anywhere { FindsAnywhere K.cmp keys.now len key result }
{
    find(keys.get(..len)?, key)
}

// Where `key` would go among the first `len` of `keys`, if it does not stand and there is room.
fn gap<K: Key>(keys: &[K], len: usize, key: K) -> Result<usize, NotAdded>
    ensures within { IfOk result (λ at. at ≤ len) }
    ensures gap { Gap K.cmp keys.now len key result }
{
    let front = keys.get(..len).ok_or(NotAdded::Full)?;
    match seek(front, key) {
        Ok(_) => Err(NotAdded::StandsAlready),
        Err(_) if len == keys.len() => Err(NotAdded::Full),
        Err(at) => Ok(at),
    }
}

/// Adds `key` to the first `len` of `keys`, which then are one more.
pub fn add<K: Key>(keys: &mut [K], len: usize, key: K) -> Result<(), NotAdded>
    ensures adds { Sound K.cmp keys.old len → Adds K.cmp keys.old len key result keys.new }
    ensures anywhere { AddsAnywhere K.cmp keys.old len key result keys.new }
{
    let at = gap(keys, len, key)?;
    insert_at(keys, len, at, key);
    Ok(())
}

/// Removes `key` from the first `len` of `keys`, which then are one fewer.
pub fn remove<K: Key>(keys: &mut [K], len: usize, key: K) -> Result<(), NotThere>
    ensures removes { Sound K.cmp keys.old len → Removes K.cmp keys.old len key result keys.new }
    ensures anywhere { RemovesAnywhere K.cmp keys.old len key result keys.new }
{
    let at = find_front(keys, len, key).ok_or(NotThere)?;
    remove_at(keys, len, at);
    Ok(())
}
