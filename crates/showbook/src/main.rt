//! Prints the book file `book.bin` of the folder that it is started in, and how many models descend from each.
#![tactic(auto)]

ghost use Rattle.std.specs.Prelude.{◌≡◌, cond, [], ◌++◌, IfOk, string_bytes, codes, decimal};
ghost use Rattle.bookfile.specs.Refusals.{number};

use book::derivation::Derivation;
use book::kept::Book;
use bookfile::checked::checking::check;
use bookfile::refusal::FileRefusal;
use folder::reading;
use index::kind::{Index, WORK};
use search::plain::PlainSearch;
use std::alloc::{AllocError, Global};
use std::io;

// The first line: how many models and derivations there are.
fn sizes(heap: Global, models: u16, derivations: usize) -> Result<String, AllocError>
    ensures { IfOk result (λ s. string_bytes s ≡ codes "models " ++ (decimal models ++ (codes ", derivations " ++ decimal derivations))) }
{
    format!(in heap; "models {models}, derivations {derivations}")
}

// The line of a derivation.
fn line(heap: Global, derivation: Derivation) -> Result<String, AllocError>
    ensures { IfOk result (λ s. string_bytes s ≡ decimal derivation.from ++ (codes " -> " ++ decimal derivation.to)) }
{
    format!(in heap; "{} -> {}", derivation.from, derivation.to)
}

// The line of a refusal.
fn refused(heap: Global, refusal: FileRefusal) -> Result<String, AllocError>
    ensures { IfOk result (λ s. string_bytes s ≡ codes "book " ++ decimal (number refusal)) }
{
    format!(in heap; "book {}", refusal.number())
}

// The line of a model from which others descend.
fn descent(heap: Global, model: u16, many: u16, in_circle: bool) -> Result<String, AllocError>
    ensures { IfOk result (λ s. string_bytes s ≡ codes "model " ++ (decimal model ++ (codes ": descendants " ++ (decimal many ++ cond in_circle (codes ", in a circle") [])))) }
{
    let circle = if in_circle { ", in a circle" } else { "" };
    format!(in heap; "model {model}: descendants {many}{circle}")
}

// The sizes and the derivations.
fn show_book(rt: &HostRuntime, book: &Book) -> io::Result<()> {
    let heap = rt.alloc();
    rt.println(sizes(heap, book.count().models(), book.len())?)?;
    for derivation in book.derivations() {
        rt.println(line(heap, *derivation)?)?;
    }
    Ok(())
}

// Each model from which others descend.
fn show_descent(rt: &HostRuntime, models: u16, search: &PlainSearch) -> io::Result<()> {
    for model in 0..models {
        let many = search.descendants(model);
        if many > 0 {
            let in_circle = search.in_circle(model);
            rt.println(descent(rt.alloc(), model, many, in_circle)?)?;
        }
    }
    Ok(())
}

fn show(rt: &HostRuntime, book: &Book) -> io::Result<()> {
    show_book(rt, book)?;
    let mut work = vec![in rt.alloc(); 0u16; WORK]?;
    let mut search = PlainSearch::new();
    match search.build(book, work.as_mut_slice()) {
        Ok(()) => show_descent(rt, book.count().models(), &search),
        Err(fault) => println!(rt; "index {}", fault.number()),
    }
}

// The book that a file's bytes say.
fn open(bytes: &[u8]) -> Result<Book, FileRefusal> {
    Ok(check(bytes)?.to_book()?)
}

fn main(rt: HostRuntime) -> io::Result<()> {
    let bytes = reading::read(&rt, "book.bin", reading::book_bytes())?;
    match open(bytes.as_slice()) {
        Ok(book) => show(&rt, &book),
        Err(refusal) => rt.println(refused(rt.alloc(), refusal)?),
    }
}
