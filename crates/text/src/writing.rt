//! Bytes, and lines of a word and a number, written into a buffer.
ghost use Rattle.std.specs.Prelude.{◌++◌, codes, decimal};
ghost use Rattle.text.specs.Numerals.{Wrote};

use crate::numeral::write_number;
use itoa::Buffer;

/// Writes bytes from `at` on, and tells where they end. With too little room it writes nothing.
pub fn write_bytes(out: &mut [u8], at: usize, bytes: &[u8]) -> Option<usize>
    ensures { Wrote out.old at bytes.now result out.new }
{
    let len = out.len();
    if at > len || len - at < bytes.len() {
        return None;
    }
    let end = at + bytes.len();
    out[at..end].copy_from_slice(bytes);
    Some(end)
}

/// Writes a word, the numeral of `n` and a line's end to the front, and tells how long they are. With too little room it writes nothing.
pub fn write_numbered(out: &mut [u8], word: &[u8], n: u16) -> Option<usize>
    ensures { Wrote out.old 0 (word.now ++ (decimal n ++ codes "\n")) result out.new }
{
    let mut buffer = Buffer::new();
    let digits = buffer.format(n).as_bytes().len();
    if word.len().checked_add(digits + 1)? > out.len() {
        return None;
    }
    let at = write_bytes(out, 0, word)?;
    let end = write_number(out, at, n)?;
    write_bytes(out, end, b"\n")
}
