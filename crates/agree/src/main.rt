//! Answers a day over two kinds of index side by side, and prints how many lines agree, and the first that differs.
//! As yet there is one kind, so both are plain search.
#![tactic(auto)]

use folder::answers::answers;
use folder::files::Files;
use lines::reading::Lines;
use orderfile::laws::days_agree;
use search::plain::PlainSearch;
use std::io;

// How two prints compare, line by line.
#[derive(Clone, Copy)]
struct Comparison {
    agreeing: usize,
    first_difference: Option<usize>,
}

impl Comparison {
    // One more line, at a place from 1.
    fn with(self, place: usize, agrees: bool) -> Comparison {
        if agrees {
            return Comparison {
                agreeing: self.agreeing.saturating_add(1),
                ..self
            };
        }
        Comparison {
            first_difference: self.first_difference.or(Some(place)),
            ..self
        }
    }
}

fn compare(first: &[u8], second: &[u8]) -> Comparison {
    let mut others = Lines::new(second);
    let mut comparison = Comparison {
        agreeing: 0,
        first_difference: None,
    };
    for one in Lines::new(first) {
        let agrees = others
            .next()
            .is_some_and(|other| one.bytes() == other.bytes());
        comparison = comparison.with(one.place(), agrees);
    }
    // where the first print ends, each further line of the other differs
    match others.next() {
        None => comparison,
        Some(other) => comparison.with(other.place(), false),
    }
}

fn main(rt: HostRuntime) -> io::Result<()> {
    let files = Files::read(&rt, "book.bin", "orders.txt")?;
    let first = answers(rt.alloc(), PlainSearch::new(), files.day())?;
    let second = answers(rt.alloc(), PlainSearch::new(), files.day())?;
    days_agree(); // the theorem: no line differs, unless an indexing is refused for surplus
    let comparison = compare(first.as_slice(), second.as_slice());
    println!(rt; "{} lines agree", comparison.agreeing)?;
    match comparison.first_difference {
        None => println!(rt; "none differs"),
        Some(place) => println!(rt; "line {place} differs first"),
    }
}
