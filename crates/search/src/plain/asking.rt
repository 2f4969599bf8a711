//! What plain search also answers: how many models descend from one, and whether one stands in a circle.
ghost use Rattle.std.specs.Prelude.{◌≡◌};
ghost use Rattle.search.specs.Plain.{descendants_of, circles};

use crate::plain::PlainSearch;

impl PlainSearch {
    /// How many other models descend from `model`, at any remove.
    pub fn descendants(&self, model: u16) -> u16
        ensures { result ≡ descendants_of self.now model }
    {
        self.successors
            .as_ref()
            .map_or(0, |kept| kept.descendants(model))
    }

    /// Whether `model` leads to another model that leads back to it.
    pub fn in_circle(&self, model: u16) -> bool
        ensures { result ≡ circles self.now model }
    {
        self.successors
            .as_ref()
            .is_some_and(|kept| kept.in_circle(model))
    }
}
