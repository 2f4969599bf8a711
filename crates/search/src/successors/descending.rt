//! How many models descend from one, and whether one stands in a circle.
ghost use Rattle.std.specs.Prelude.{◌≡◌, ◌≤◌, false, not, ◌&&◌, ◌==◌, slice_index_or, count_by};
ghost use Rattle.std.specs.List.{list_any, range_with_len};
ghost use Rattle.search.specs.Following.{models_of, reaches, others, returned};

use crate::successors::Successors;
use crate::successors::walk::Walk;

// How many of the first `models` places are marked, that of `model` left out.
fn count_others(marks: &[bool; 1024], models: u16, model: u16) -> u16
    requires { models ≤ 1024 }
    ensures { result ≡ count_by (λ v. not (model == v) && slice_index_or marks.now v false) (range_with_len 0 models) }
{
    let mut many = 0; // a loop: filtering and counting takes two thirds longer
    for v in 0..models {
        if model != v && marks[v as usize] {
            many += 1;
        }
    }
    many
}

impl Successors {
    /// How many other models descend from `model`, at any remove.
    pub fn descendants(&self, model: u16) -> u16
        ensures { result ≡ others (models_of self.now) (reaches self.now) model }
    {
        let mut walk = Walk::new();
        self.spread(model, &mut walk);
        count_others(&walk.marks, self.models, model)
    }

    // Whether one of `models` is another model than `model`, and leads to it.
    fn any_leads_back(&self, models: &[u16], model: u16) -> bool
        ensures { result ≡ list_any (λ v. not (model == v) && reaches self.now v model) models.now }
    {
        models.iter().any(|v| model != *v && self.leads(*v, model))
    }

    /// Whether `model` leads to another model that leads back to it.
    pub fn in_circle(&self, model: u16) -> bool
        ensures { result ≡ returned (models_of self.now) (reaches self.now) model }
    {
        self.any_leads_back(self.targets_of(model), model)
    }
}
