//! The lines of a file, read one by one.
ghost use Rattle.std.specs.Prelude.{◌+◌, ◌^◌, ◌<◌, length};

pub mod counting;
pub mod showing;
mod splitting;
pub mod stepping;

/// A line without its end, and its place in the file, from 1.
#[derive(Clone, Copy, Debug, PartialEq, Eq)]
pub struct Line<'a> {
    bytes: &'a [u8],
    place: usize,
}

/// What is left to read of a file, and how many lines were read.
#[derive(Drop)]
pub struct Lines<'a> {
    rest: &'a [u8],
    place: usize,
    ghost room: { place + length rest.now < 2 ^ 64 },
}
