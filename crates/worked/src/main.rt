//! Runs the book files of `cases.txt` and the limits of a book, and prints what becomes of each.
//! A case is a line `NAME: BYTES`, the bytes in hexadecimal with spaces between them.
#![tactic(auto)]

use anyhow::bail;
use book::count::Count;
use book::derivation::Derivation;
use book::kept::Book;
use book::refusal::Refusal;
use bookfile::checked::BookFile;
use bookfile::checked::checking::check;
use bookfile::copying::copy;
use bookfile::writing::write;
use std::alloc::{AllocError, Global};
use std::fmt::Write;
use std::fs;

// The bytes of a text in hexadecimal.
fn bytes_of(heap: Global, text: &str) -> anyhow::Result<Vec<u8>> {
    text.split_whitespace()
        .map(|word| u8::from_str_radix(word, 16).map_err(anyhow::Error::from))
        .try_collect(heap)
}

// What a checked file shows.
fn shown(heap: Global, file: &BookFile) -> Result<String, AllocError> {
    let mut text = format!(in heap; "{} models,", file.models())?;
    for derivation in file.derivations() {
        write!(text, " ({},{})", derivation.from, derivation.to)?;
    }
    Ok(text)
}

// What a file comes to: its refusal, or what it shows; and whether its copy has the same bytes.
fn checked(heap: Global, bytes: &[u8]) -> Result<String, AllocError> {
    let file = match check(bytes) {
        Ok(file) => file,
        Err(refusal) => return format!(in heap; "book {}", refusal.number()),
    };
    let mut text = shown(heap, &file)?;
    let mut out = [0u8; 8200];
    let copied = copy(bytes, &mut out).is_ok_and(|len| out.get(..len) == Some(bytes));
    text.push_str(if copied { " copied" } else { " NOT COPIED" })?;
    Ok(text)
}

fn run_cases(rt: &HostRuntime) -> anyhow::Result<()> {
    let heap = rt.alloc();
    let text = fs::read_to_string(rt, "cases.txt")?;
    for line in text.as_str().lines() {
        if let Some((name, hex)) = line.split_once(':') {
            let bytes = bytes_of(heap, hex)?;
            let told = checked(heap, bytes.as_slice())?;
            println!(rt; "{name}: {told}")?;
        }
    }
    Ok(())
}

// How a call went: 0, or the number of its refusal.
fn number(told: Result<(), Refusal>) -> u8 {
    told.err().map_or(0, Refusal::number)
}

// Enters derivations from each model to the next three in turn, so many in all, and tells how many stand then.
fn fill(book: &mut Book, many: usize) -> Result<usize, Refusal> {
    for from in 0..1024u16 {
        for step in 1..4u16 {
            if book.len() < many {
                let to = (from + step) % 1024;
                book.enter(Derivation { from, to })?;
            }
        }
    }
    Ok(book.len())
}

// Entry 2,049 is refused, and passes after a strike.
fn run_full(rt: &HostRuntime, book: &mut Book) -> anyhow::Result<()> {
    let Ok(entered) = fill(book, 2048) else {
        bail!("an entry was refused");
    };
    let last = Derivation { from: 1023, to: 0 };
    let full = number(book.enter(last));
    let struck = number(book.strike(Derivation { from: 0, to: 1 }));
    let again = number(book.enter(last));
    println!(rt; "entered {entered}, entry 2049: {full}, strike: {struck}, entry: {again}")?;
    Ok(())
}

// A full book wants 8,196 bytes.
fn run_writing(rt: &HostRuntime, book: &Book) -> anyhow::Result<()> {
    let mut out = [0u8; 8196];
    let Err(refusal) = write(book, &mut out[..8195]) else {
        bail!("8,195 bytes are enough");
    };
    let Ok(len) = write(book, &mut out) else {
        bail!("8,196 bytes are too few");
    };
    let Ok(file) = check(&out) else {
        bail!("what was written is refused");
    };
    println!(rt;
        "into 8195 bytes: {}, into 8196: {len}, checked: {} models, {} derivations",
        refusal.number(),
        file.models(),
        file.len()
    )?;
    Ok(())
}

fn run_limits(rt: &HostRuntime) -> anyhow::Result<()> {
    let Ok(count) = Count::new(1024) else {
        bail!("1,024 models are refused");
    };
    let mut book = Book::new(count);
    run_full(rt, &mut book)?;
    run_writing(rt, &book)
}

fn main(rt: HostRuntime) -> anyhow::Result<()> {
    run_cases(&rt)?;
    run_limits(&rt)
}
