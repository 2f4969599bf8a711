//! Where a line ends.
ghost use Rattle.std.specs.Prelude.{◌≡◌, ◌<◌, ◌∷◌, length};
ghost use Rattle.lines.specs.Lines.{lines_of};

/// The first line, and what stands behind its end.
pub fn first_line(bytes: &[u8]) -> (&[u8], &[u8])
    ensures first { 0 < length bytes.now → lines_of bytes.now ≡ result.0.now ∷ lines_of result.1.now }
    ensures shorter { 0 < length bytes.now → length result.1.now < length bytes.now }
{
    match bytes.iter().position(|b| *b == b'\n') {
        Some(end) => (&bytes[..end], &bytes[end + 1..]),
        None => (bytes, &[]),
    }
}
