//! Whole runs: any sequence of calls on a newly opened shop, carried on past refusals.
ghost use Rattle.std.specs.Prelude.{min, length, take};
ghost use Rattle.book.specs.Counts.{models};
ghost use Rattle.history.specs.Theorems.{ByTheLastCall};
ghost use Rattle.shop.specs.Runs.{Ran, Agree};

use crate::running::Shop;
use book::count::Count;
use history::answer::Answer;
use history::call::Call;
use index::kind::Index;

/// Makes the calls in turn on a newly opened shop, and writes their answers. It ends at the first call that asks for
/// more work space than is lent or has no place among the answers, and tells how many calls were made.
pub fn run<I: Index + Drop>(
    count: Count,
    index: I,
    calls: &[Call],
    work: &mut [u16],
    answers: &mut [Answer],
) -> usize
    ensures law { Ran I.Index.CAPACITY (models count) (length work.old) calls.now answers.old result answers.new }
    ensures words { ByTheLastCall }
{
    let mut shop = Shop::open(count, index);
    let most = calls.len().min(answers.len());
    // by place: what a loop over `iter_mut` wrote has no name in its invariant
    for (made, call) in calls[..most].iter().enumerate() {
        match shop.serve(*call, work) {
            Some(answer) => answers[made] = answer,
            None => return made,
        }
    }
    most
}

/// Makes the same calls on two newly opened shops, over two kinds of index: as many as have places among both answers.
pub fn compare<I: Index + Drop, J: Index + Drop>(
    count: Count,
    index: I,
    other: J,
    calls: &[Call],
    work: &mut [u16],
    answers: &mut [Answer],
    others: &mut [Answer],
) -> usize
    ensures first { Ran I.Index.CAPACITY (models count) (length work.old) (take (min (length answers.old) (length others.old)) calls.now) answers.old result answers.new }
    ensures second { Ran J.Index.CAPACITY (models count) (length work.old) (take (min (length answers.old) (length others.old)) calls.now) others.old result others.new }
    ensures agree { Agree result answers.new others.new }
{
    let places = answers.len().min(others.len()).min(calls.len());
    let calls = &calls[..places];
    let made = run(count, index, calls, work, answers);
    run(count, other, calls, work, others);
    made
}
