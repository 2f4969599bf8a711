//! The models that were taken from one model.
ghost use Rattle.std.specs.Prelude.{◌≡◌};
ghost use Rattle.search.specs.Following.{models_of, taken};

use crate::successors::Successors;

impl Successors {
    /// The count of models.
    pub fn models(&self) -> u16
        ensures { result ≡ models_of self.now }
    {
        self.models
    }

    // The models that were taken from `model`; none if there is no such model.
    pub(super) fn targets_of(&self, model: u16) -> &[u16]
        ensures { result.now ≡ taken self.now model }
    {
        if model >= self.models {
            return &self.targets[0..0];
        }
        let place = model as usize;
        let low = self.starts[place] as usize;
        let high = self.starts[place + 1] as usize;
        &self.targets[low..high]
    }
}
