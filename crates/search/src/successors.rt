//! A book's derivations, by the model that they start from.
ghost use Rattle.std.specs.Prelude.{ℕ, ◌+◌, ◌<◌, ◌≤◌, slice_index};

pub mod descending;
pub mod filling;
pub mod reaching;
pub mod reading;
mod rows;
mod walk;

/// The models that were taken from model `u` are `targets[starts[u]..starts[u + 1]]`: one block for all rows, without a heap.
#[derive(Drop)]
pub struct Successors {
    models: u16,
    targets: [u16; 2048],
    starts: [u16; 1025],
    ghost few: { models ≤ 1024 },
    ghost rise: { ((u : ℕ) → u < models → slice_index starts u ≤ slice_index starts (u + 1)) },
    ghost fits: { ((u : ℕ) → u < models → slice_index starts (u + 1) ≤ 2048) },
    ghost known: { ((u k : ℕ) → u < models → k < slice_index starts (u + 1) → slice_index targets k < models) },
}
