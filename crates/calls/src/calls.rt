//! Runs calls on a shop: the lengths of a work space, two kinds side by side, and the room that a day asks for.
use anyhow::{Context, bail};
use book::count::Count;
use book::derivation::Derivation;
use history::answer::{Answer, Outcome};
use history::call::Call;
use index::kind::WORK;
use lines::reply::{REPLY_ROOM, reply_of, write_reply};
use orderfile::day::{Day, answer_day};
use search::plain::PlainSearch;
use shop::runs::compare;

// An indexing with one number too little, one with just enough, and one that asks for more than is lent.
const CALLS: [Call; 8] = [
    Call::Enter(Derivation { from: 0, to: 1 }),
    Call::Index { work: 32767 },
    Call::Order { model: 1 },
    Call::Index { work: 32768 },
    Call::Hold {
        model: 0,
        holder: 7,
    },
    Call::Order { model: 1 },
    Call::Index { work: 32769 },
    Call::Order { model: 1 },
];

// Prints the answers, each with the line that it is written as.
fn show(rt: &HostRuntime, answers: &[Answer]) -> anyhow::Result<()> {
    for answer in answers {
        let mut line = [0u8; REPLY_ROOM];
        let len = write_reply(&mut line, reply_of(*answer)).context("no room for a reply")?;
        print!(rt; "{}", std::str::from_utf8(&line[..len])?)?;
    }
    Ok(())
}

// The same calls over two kinds of index, of which there is one as yet.
pub fn run_calls(rt: &HostRuntime) -> anyhow::Result<()> {
    let Ok(count) = Count::new(2) else {
        bail!("2 models are refused");
    };
    let mut work = vec![in rt.alloc(); 0u16; WORK]?;
    let mut answers = [Ok(Outcome::Done); 8];
    let mut others = [Ok(Outcome::Done); 8];
    let made = compare(
        count,
        PlainSearch::new(),
        PlainSearch::new(),
        &CALLS,
        work.as_mut_slice(),
        &mut answers,
        &mut others,
    );
    println!(rt; "calls made: {made}")?;
    let (Some(answers), Some(others)) = (answers.get(..made), others.get(..made)) else {
        bail!("more answers than places");
    };
    show(rt, answers)?;
    println!(rt; "over the other kind:")?;
    show(rt, others)
}

// A day of one line: it asks for 16 bytes.
pub fn run_room(rt: &HostRuntime) -> anyhow::Result<()> {
    let day = Day {
        book: &[1, 0, 0, 0],
        orders: b"C 0",
    };
    let mut work = vec![in rt.alloc(); 0u16; WORK]?;
    let mut out = [0u8; 16];
    let Err(refusal) = answer_day(PlainSearch::new(), day, work.as_mut_slice(), &mut out[..15])
    else {
        bail!("15 bytes are enough");
    };
    let Ok(len) = answer_day(PlainSearch::new(), day, work.as_mut_slice(), &mut out) else {
        bail!("16 bytes are too few");
    };
    println!(rt;
        "a line into 15 bytes: {}, into 16: {len}",
        refusal.number()
    )?;
    Ok(())
}
