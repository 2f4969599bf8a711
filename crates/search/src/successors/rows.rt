//! The rows: the targets in a line, and where those of each model start.
ghost use Rattle.std.specs.Prelude.{◌≡◌, ℕ, ◌+◌, ◌<◌, ◌≤◌, length, slice_index};
ghost use Rattle.search.specs.Rows.{at, Cut, Level};

use book::derivation::Derivation;

/// Copies the second model of each derivation.
pub fn copy_targets(derivations: &[Derivation], targets: &mut [u16])
    requires { length derivations.now ≤ length targets.old }
    ensures { (k : ℕ) → k < length derivations.now → slice_index targets.new k ≡ (at derivations.now k).to }
{
    // by place: what a loop over `iter_mut` wrote has no name in its invariant
    for (i, d) in derivations.iter().enumerate() {
        targets[i] = d.to;
    }
}

/// Writes `value` to the places from `low` to `high`.
fn level(places: &mut [u16], low: usize, high: usize, value: u16)
    requires { (low ≤ high) × (high ≤ length places.old) }
    ensures { Level places.old low high value places.new }
{
    places[low..high].fill(value);
}

/// Writes to `starts[u]`, for each model u and for the count, how many derivations come before those of u.
pub fn cut(derivations: &[Derivation], models: u16, starts: &mut [u16])
    requires few { length derivations.now ≤ 2048 }
    requires room { models < length starts.old }
    requires rises { (i j : ℕ) → i ≤ j → j < length derivations.now → (at derivations.now i).from ≤ (at derivations.now j).from }
    requires known { (k : ℕ) → k < length derivations.now → (at derivations.now k).from < models }
    ensures { (u : ℕ) → u ≤ models → Cut derivations.now u (slice_index starts.new u) }
{
    let mut next = 0; // one walk for all models: a halving search for each takes four times as long
    for (i, d) in derivations.iter().enumerate() {
        let end = d.from as usize + 1;
        if next < end {
            level(starts, next, end, i as u16);
            next = end;
        }
    }
    level(starts, next, models as usize + 1, derivations.len() as u16);
}
