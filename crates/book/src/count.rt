//! The count of models.
ghost use Rattle.std.specs.Prelude.{◌≤◌};

pub mod checked;

/// A checked count of models, from 1 to 1,024. The models are numbered from 0.
#[derive(Clone, Copy, Debug, PartialEq, Eq)]
pub struct Count {
    models: u16,
    ghost some: { 1 ≤ models },
    ghost most: { models ≤ 1024 },
}
