//! A theorem on days, on the contract of a function that does nothing.
ghost use Rattle.orderfile.specs.Laws.{DaysAgree};

/// Two kinds of index give the same replies to a day, and print the same, where neither is refused for surplus.
#[tactic(auto, using(crate::proofs::Agreeing::days_agree))]
pub fn days_agree()
    ensures { DaysAgree }
{}
