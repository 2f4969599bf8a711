//! Answers a day: reads `book.bin` and `orders.txt` in the folder that it is started in, and prints the answer lines.
#![tactic(auto)]

use folder::answers::answers;
use folder::files::Files;
use search::plain::PlainSearch;
use std::io;
use std::io::Write;

fn main(rt: HostRuntime) -> io::Result<()> {
    let files = Files::read(&rt, "book.bin", "orders.txt")?;
    let printed = answers(rt.alloc(), PlainSearch::new(), files.day())?;
    rt.stdout().write_all(printed.as_slice())
}
