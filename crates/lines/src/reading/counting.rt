//! How many lines a file has.
ghost use Rattle.std.specs.Prelude.{◌≡◌, length};
ghost use Rattle.lines.specs.Lines.{lines_of};

use crate::reading::Lines;

/// How many lines the bytes of a file have.
pub fn count_lines(bytes: &[u8]) -> usize
    ensures { result ≡ length (lines_of bytes.now) }
{
    Lines::new(bytes).count()
}
