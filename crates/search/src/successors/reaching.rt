//! The search from one model.
ghost use Rattle.std.specs.Prelude.{◌≡◌, ℕ, ◌<◌, true, false, ◌↔◌, [], replicate, slice_index_or};
ghost use Rattle.lineage.specs.Finite.{Chain};
ghost use Rattle.search.specs.Following.{models_of, follows, reaches};
ghost use Rattle.search.specs.Walks.{found_in};

use crate::successors::Successors;
use crate::successors::walk::Walk;

impl Successors {
    // Marks the models that `from` leads to, on a walk that has found nothing; none if `from` is no model.
    #[inline(always)] // so that the walk lies where the question is asked; answered, it took up to twice as long
    pub(super) fn spread(&self, from: u16, walk: &mut Walk)
        requires marks { walk.old.marks ≡ replicate 1024 false }
        requires found { found_in walk.old ≡ [] }
        ensures { (v : ℕ) → slice_index_or walk.new.marks v false ≡ reaches self.now from v }
    {
        if from >= self.models {
            return;
        }
        walk.find(from);
        let mut visited = 0; // not in the walk, where each step would write it to memory
        while let Some(model) = walk.next(visited) {
            walk.find_all(self.targets_of(model));
            visited += 1;
        }
    }

    /// Marks on the models that `from` leads to, and on no other; none if `from` is no model.
    pub fn reached(&self, from: u16) -> [bool; 1024]
        ensures leads { (v : ℕ) → slice_index_or result v false ≡ reaches self.now from v }
        ensures chains { (v : ℕ) → (slice_index_or result v false ≡ true) ↔ ((from < models_of self.now) × Chain (follows self.now) from v) }
    {
        let mut walk = Walk::new();
        self.spread(from, &mut walk);
        walk.marks
    }

    /// Whether `u` and `v` are models and `u` leads to `v`.
    pub fn leads(&self, u: u16, v: u16) -> bool
        ensures leads { result ≡ reaches self.now u v }
        ensures chains { (result ≡ true) ↔ ((u < models_of self.now) × Chain (follows self.now) u v) }
    {
        if v >= self.models {
            return false;
        }
        let mut walk = Walk::new();
        self.spread(u, &mut walk);
        walk.marks[v as usize]
    }
}
