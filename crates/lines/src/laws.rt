//! Theorems on lines. Each function here does nothing and carries one theorem on its contract.
ghost use Rattle.lines.specs.Theorems.{LinesMakeTheFile, NoEndInALine, EndedLinesAreLines, RepliesAreLines, RepliesTellTheAnswer};

/// The lines of a file, with 0A between them, are the file, less at most its last 0A.
#[tactic(auto, using(crate::proofs::Lines::lines_whole))]
pub fn lines_make_the_file()
    ensures { LinesMakeTheFile }
{}

/// No line has a 0A in it.
#[tactic(auto, using(crate::proofs::Lines::lines_clear))]
pub fn no_end_in_a_line()
    ensures { NoEndInALine }
{}

/// Lines without 0A, each with its end, are the lines of what they make together.
#[tactic(auto, using(crate::proofs::Lines::lines_ended))]
pub fn ended_lines_are_lines()
    ensures { EndedLinesAreLines }
{}

/// Replies one behind another are as many lines.
#[tactic(auto, using(crate::proofs::Replies::replies_lines))]
pub fn replies_are_lines()
    ensures { RepliesAreLines }
{}

/// The reply made of an answer stands for what the answer stands for.
#[tactic(auto, using(crate::proofs::Replies::told_same))]
pub fn replies_tell_the_answer()
    ensures { RepliesTellTheAnswer }
{}
