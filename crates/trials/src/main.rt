//! Answers the days of `cases.txt`, and then days whose files are there or missing, and prints what becomes of each.
//! A case is a line `NAME: BOOK / ORDERS`: the bytes of the two files in hexadecimal with spaces between them, `xx*N` for a byte N times.
#![tactic(auto)]

use anyhow::bail;
use folder::answers::answers;
use folder::files::Files;
use lines::reading::Lines;
use lines::reading::counting::count_lines;
use orderfile::day::Day;
use search::plain::PlainSearch;
use std::alloc::Global;
use std::{fmt, fs};

// The bytes of a text in hexadecimal.
fn bytes_of(heap: Global, text: &str) -> anyhow::Result<Vec<u8>> {
    let mut bytes = Vec::new(heap);
    for word in text.split_whitespace() {
        match word.split_once('*') {
            None => bytes.push(u8::from_str_radix(word, 16)?)?,
            Some((byte, times)) => {
                let byte = u8::from_str_radix(byte, 16)?;
                for _ in 0..times.parse::<u32>()? {
                    bytes.push(byte)?;
                }
            }
        }
    }
    Ok(bytes)
}

// How many answer lines begin with each word, and a sum over all bytes.
#[derive(Clone, Copy, Default)]
struct Tally {
    ok: usize,
    carve: usize,
    stop: usize,
    no: usize,
    sum: u64,
}

impl Tally {
    // With one more answer line: its first byte tells its word.
    fn with(self, line: &[u8]) -> Tally {
        match line.first() {
            Some(b'o') => Tally {
                ok: self.ok.saturating_add(1),
                ..self
            },
            Some(b'c') => Tally {
                carve: self.carve.saturating_add(1),
                ..self
            },
            Some(b's') => Tally {
                stop: self.stop.saturating_add(1),
                ..self
            },
            Some(b'n') => Tally {
                no: self.no.saturating_add(1),
                ..self
            },
            _ => self,
        }
    }

    // What the answers come to in all.
    fn of(printed: &[u8]) -> Tally {
        let tally = Tally {
            sum: weighed(printed),
            ..Tally::default()
        };
        Lines::new(printed).fold(tally, |tally, line| tally.with(line.bytes()))
    }
}

impl fmt::Display for Tally {
    fn fmt<W: fmt::Write>(&self, f: &mut fmt::Formatter<W>) -> fmt::Result {
        write!(
            f,
            "ok {}, carve {}, stop {}, no {}, sum {}",
            self.ok, self.carve, self.stop, self.no, self.sum
        )
    }
}

// A sum over the bytes, each by its place.
fn weighed(bytes: &[u8]) -> u64 {
    bytes.iter().enumerate().fold(0, |sum: u64, (place, byte)| {
        sum.saturating_add(u64::from(*byte) * (1 + place as u64 % 251))
    })
}

// Few answers are printed as they are, many by their tally.
fn show(rt: &HostRuntime, name: &str, printed: &[u8]) -> anyhow::Result<()> {
    let lines = count_lines(printed);
    if lines > 40 {
        println!(rt; "{name}: {lines} lines, {}", Tally::of(printed))?;
        return Ok(());
    }
    println!(rt; "{name}:")?;
    match std::str::from_utf8(printed) {
        Ok(text) => print!(rt; "{text}")?,
        Err(_) => println!(rt; "no text")?,
    }
    Ok(())
}

fn answer(rt: &HostRuntime, case: &str) -> anyhow::Result<()> {
    let heap = rt.alloc();
    let Some((name, files)) = case.split_once(':') else {
        bail!("a case has no name");
    };
    let Some((book, orders)) = files.split_once('/') else {
        bail!("a case has no order file");
    };
    let book = bytes_of(heap, book)?;
    let orders = bytes_of(heap, orders)?;
    let day = Day {
        book: book.as_slice(),
        orders: orders.as_slice(),
    };
    let printed = answers(heap, PlainSearch::new(), day)?;
    show(rt, name, printed.as_slice())
}

// Answers the day of two files of the folder.
fn answer_files(rt: &HostRuntime, name: &str, book: &str, orders: &str) -> anyhow::Result<()> {
    let files = Files::read(rt, book, orders)?;
    let printed = answers(rt.alloc(), PlainSearch::new(), files.day())?;
    show(rt, name, printed.as_slice())
}

fn main(rt: HostRuntime) -> anyhow::Result<()> {
    let cases = fs::read_to_string(&rt, "cases.txt")?;
    for case in cases.as_str().lines() {
        answer(&rt, case)?;
    }
    answer_files(&rt, "files of the folder", "book.bin", "orders.txt")?;
    // longer than a book file is read
    answer_files(&rt, "long order file", "book.bin", "long.txt")?;
    answer_files(&rt, "order file is missing", "book.bin", "missing.txt")?;
    answer_files(&rt, "book file is missing", "missing.bin", "orders.txt")?;
    answer_files(&rt, "both files are missing", "missing.bin", "missing.txt")
}
