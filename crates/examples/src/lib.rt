//! Worked examples: what the definitions give on books that are small enough to be worked by hand. No code runs.
#![tactic(auto)]

ghost use Rattle.examples.specs.Worked.{WorkedExamples};

/// A book of eight models with its index, its holds and a day of it, the closure of two links, and a whole day of a book of three models.
pub fn worked_examples()
    ensures { WorkedExamples }
{}
