//! A search under way.
ghost use Rattle.std.specs.Prelude.{◌≡◌, ℕ, ◌+◌, ◌<◌, ◌≤◌, true, length, take, drop};
ghost use Rattle.search.specs.Following.{lists};
ghost use Rattle.search.specs.Marks.{unmarked, Finds};

/// The models that were found are marked. The first `tail` places have them in the order in which they were found.
#[derive(Drop)]
pub struct Walk {
    pub(super) marks: [bool; 1024],
    found: [u16; 1024], // in an array vector a search from a hub takes twice as long
    tail: usize,
    ghost size: { length marks ≡ 1024 },
    ghost room: { tail + unmarked marks ≤ 1024 },
}

/// Marks those of `models` that have no mark, keeps them from `tail` on, and tells where they end.
fn visit(models: &[u16], marks: &mut [bool; 1024], found: &mut [u16; 1024], tail: usize) -> usize
    requires known { (v : ℕ) → lists models.now v ≡ true → v < 1024 }
    requires room { tail + unmarked marks.old ≤ 1024 }
    ensures room { result + unmarked marks.new ≡ tail + unmarked marks.old }
    ensures finds { (h : ℕ) → h ≤ tail → Finds models.now marks.old (drop h (take tail found.old)) marks.new (drop h (take result found.new)) }
{
    let mut end = tail;
    for model in models {
        let place = *model as usize;
        if !marks[place] {
            marks[place] = true;
            found[end] = *model;
            end += 1;
        }
    }
    end
}

impl Walk {
    ghost use Rattle.std.specs.Prelude.{false, [], ◌∷◌, replicate, MatchOption};
    ghost use Rattle.search.specs.Walks.{found_in, waiting};

    /// A walk that has found nothing.
    pub fn new() -> Walk
        ensures marks { result.marks ≡ replicate 1024 false }
        ensures found { found_in result ≡ [] }
    {
        Walk {
            marks: [false; 1024],
            found: [0; 1024],
            tail: 0,
        }
    }

    /// Marks `model` and lets it wait, unless it has a mark.
    pub fn find(&mut self, model: u16)
        requires { model < 1024 }
        ensures { (n : ℕ) → n ≤ length (found_in self.old) → Finds (model ∷ []) self.old.marks (waiting n self.old) self.new.marks (waiting n self.new) }
    {
        self.find_all(&[model]);
    }

    /// Marks those of `models` that have no mark, and lets them wait.
    pub fn find_all(&mut self, models: &[u16])
        requires { (v : ℕ) → lists models.now v ≡ true → v < 1024 }
        ensures { (n : ℕ) → n ≤ length (found_in self.old) → Finds models.now self.old.marks (waiting n self.old) self.new.marks (waiting n self.new) }
    {
        // most rows are empty, and for those nothing is written
        if !models.is_empty() {
            self.tail = visit(models, &mut self.marks, &mut self.found, self.tail);
        }
    }

    /// The model that waits longest after the first `visited` were visited.
    pub fn next(&self, visited: usize) -> Option<u16>
        ensures { MatchOption result (waiting visited self.now ≡ []) (λ w. (visited < length (found_in self.now)) × (waiting visited self.now ≡ w ∷ waiting (visited + 1) self.now)) }
    {
        if visited >= self.tail {
            return None;
        }
        Some(self.found[visited])
    }
}
