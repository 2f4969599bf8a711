//! Numbers of 16 bits as two bytes, the low byte first.
ghost use Rattle.std.specs.Prelude.{◌≡◌, ◌+◌, ◌<◌, ◌≤◌, [], ◌∷◌, ◌++◌, length, MatchOption};
ghost use Rattle.bookfile.specs.Files.{words};
ghost use Rattle.text.specs.Placing.{placed};

// The number that the bytes begin with, and what stands behind it.
pub fn take_word(bytes: &[u8]) -> Option<(u16, &[u8])>
    ensures { MatchOption result (length bytes.now < 2) (λ p. bytes.now ≡ words (p.0 ∷ []) ++ p.1.now) }
{
    let (word, rest) = bytes.split_first_chunk()?;
    Some((u16::from_le_bytes(*word), rest))
}

// Writes a number and tells where it ends.
pub fn put_word(out: &mut [u8], at: usize, n: u16) -> usize
    requires { at + 2 ≤ length out.old }
    ensures end { result ≡ at + 2 }
    ensures bytes { out.new ≡ placed out.old at (words (n ∷ [])) }
{
    let end = at + 2;
    out[at..end].copy_from_slice(&n.to_le_bytes());
    end
}
