//! Theorems on histories. Each function here does nothing and carries one theorem on its contract.
ghost use Rattle.history.specs.Theorems.{ByTheLastEvent, ByTheLastCall, RefusedChangesNothing, OrdersAreAnswered};
ghost use Rattle.history.specs.Theorems.{AnswersAreDecided, KindsAgree, OneLawfulHistory, LawfulListsSay, LawfulBounds};

/// A derivation stands, a model is held and by whom, and the index is current, exactly as the last event of it says.
#[tactic(auto, using(crate::proofs::Last::by_the_last_event))]
pub fn by_the_last_event()
    ensures { ByTheLastEvent }
{}

/// The same by the last accepted call of it.
#[tactic(auto, using(crate::proofs::LastCall::by_the_last_call))]
pub fn by_the_last_call()
    ensures { ByTheLastCall }
{}

/// By a refused call nothing happens, and by an order neither.
#[tactic(auto, using(crate::proofs::Refusals::refused_changes_nothing))]
pub fn refused_changes_nothing()
    ensures { RefusedChangesNothing }
{}

/// While the index is current, an order for a model of the book is carved or stopped; while it is not, it is refused by 13.
#[tactic(auto, using(crate::proofs::Made::orders_are_answered))]
pub fn orders_are_answered()
    ensures { OrdersAreAnswered }
{}

/// The law leaves one answer to a call, and so one history over the same calls.
#[tactic(auto, using(crate::proofs::Histories::answers_are_decided))]
pub fn answers_are_decided()
    ensures { AnswersAreDecided }
{}

/// Two kinds of index lead to the same answers, where neither is refused for surplus.
pub fn kinds_agree()
    ensures { KindsAgree }
{}

/// Any calls, on a shop of any count, make one lawful history, and only one.
#[tactic(auto, using(crate::proofs::Made::one_lawful_history))]
pub fn one_lawful_history()
    ensures { OneLawfulHistory }
{}

/// The rising list of derivations and the list of holds that a shop keeps say what stands and what is held, and how many.
#[tactic(auto, using(crate::proofs::Made::lawful_lists_say))]
pub fn lawful_lists_say()
    ensures { LawfulListsSay }
{}

/// Only models below the count stand and are held; at most 2,048 derivations stand, and at most 64 models are held.
#[tactic(auto, using(crate::proofs::Bounds::lawful_bounds))]
pub fn lawful_bounds()
    ensures { LawfulBounds }
{}
