//! The mathematics of a model book. The definitions stand in specs/, the proofs in proofs/; no code runs.
//! Each function here does nothing and carries one theorem on its contract. A book is a count `n` of models and a
//! test `R u v`, "v was taken from u"; `OfEveryBook P` says P of every count and every relation on the models below it.
#![tactic(auto)]

ghost use Rattle.lineage.specs.Example.{Worked};
ghost use Rattle.lineage.specs.Theorems.{OfEveryBook, OfEveryListOfLinks};
ghost use Rattle.lineage.specs.Theorems.{LeadsIsChain, GroupsAreMutual, ArcsAndParents, StartsArePreorder, IntervalsTellAncestors};
ghost use Rattle.lineage.specs.Theorems.{LinksAreExact, TIsLeast, XAndYAreExact, CountsAreExact, LabelsAreExact, TablesAreSmall};
ghost use Rattle.lineage.specs.Theorems.{AnswerIsLeads, OfEveryListOfDerivations, SurplusIsBelow};

/// u leads to v exactly if there is a chain of derivations from u to v.
pub fn leads_is_chain()
    ensures { OfEveryBook LeadsIsChain }
{}

/// Two models have one group exactly if each leads to the other, and the group goes by its lowest model.
pub fn groups_are_mutual()
    ensures { OfEveryBook GroupsAreMutual }
{}

/// What an arc is, and that a tree parent is the lowest group with an arc in.
pub fn arcs_and_parents()
    ensures { OfEveryBook ArcsAndParents }
{}

/// The starts number the groups in the recursive preorder, and an interval is as long as its subtree.
pub fn starts_are_preorder()
    ensures { OfEveryBook StartsArePreorder }
{}

/// A start lies in an interval exactly if its group is the interval's or stands below it in the tree.
pub fn intervals_tell_ancestors()
    ensures { OfEveryBook IntervalsTellAncestors }
{}

/// The list of links holds exactly the links of the book, rising.
pub fn links_are_exact()
    ensures { OfEveryBook LinksAreExact }
{}

/// For any list of links: T as computed is the least set, each member once.
pub fn closure_is_least()
    ensures { OfEveryListOfLinks TIsLeast }
{}

/// For any list of links: X and Y hold exactly the sources and the target starts in T, rising, and are no longer than the list.
pub fn sides_are_exact()
    ensures { OfEveryListOfLinks XAndYAreExact }
{}

/// For any list of links: N is the number of members that it is said to count, and the cells are N at the elements of X and Y.
pub fn counts_are_exact()
    ensures { OfEveryListOfLinks CountsAreExact }
{}

/// The three parts of a label are what they are said to be.
pub fn labels_are_exact()
    ensures { OfEveryBook LabelsAreExact }
{}

/// t ≤ surplus, |T| ≤ t (t + 1) / 2, |X| ≤ t, |Y| ≤ t.
pub fn tables_are_small()
    ensures { OfEveryBook TablesAreSmall }
{}

/// The answer by intervals and cells is exactly leads-to.
pub fn answer_is_leads()
    ensures { OfEveryBook AnswerIsLeads }
{}

/// The surplus is below the number of derivations, if there are any, and below 2,048 if there are at most 2,048.
pub fn surplus_is_below()
    ensures { OfEveryListOfDerivations SurplusIsBelow }
{}

/// The book of eight models, worked through from the definitions, and the closure of two links.
pub fn worked_book()
    ensures { Worked }
{}
