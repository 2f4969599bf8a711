//! Decimal numerals of numbers up to 65,535: written into a buffer, and read back.
ghost use Rattle.std.specs.Prelude.{◌≡◌, ◌<◌, true, decimal, MatchOption};
ghost use Rattle.std.specs.Str.Parse.{digits_value};
ghost use Rattle.std.specs.Str.{all_ascii_digits};
ghost use Rattle.text.specs.Numerals.{lead, Begins, NoNumeral, Read, Wrote, Back};

use crate::writing::write_bytes;
use itoa::Buffer;

/// Writes the numeral of `n` from `at` on, and tells where it ends. With too little room it writes nothing.
pub fn write_number(out: &mut [u8], at: usize, n: u16) -> Option<usize>
    ensures wrote { Wrote out.old at (decimal n) result out.new }
    ensures back { Back out.old at n result out.new }
{
    let mut buffer = Buffer::new();
    write_bytes(out, at, buffer.format(n).as_bytes())
}

// How many digits the bytes begin with.
fn digits(bytes: &[u8]) -> usize
    ensures { result ≡ lead bytes.now }
{
    bytes.iter().take_while(|b| b.is_ascii_digit()).count()
}

// The number that digits write, if it is at most 65,535.
fn number(digits: &[u8]) -> Option<u16>
    requires { all_ascii_digits digits.now ≡ true }
    ensures { MatchOption result (65535 < digits_value 10 digits.now) (λ n. n ≡ digits_value 10 digits.now) }
{
    let mut n: u16 = 0;
    for b in digits {
        n = n.checked_mul(10)?.checked_add(u16::from(*b - b'0'))?;
    }
    Some(n)
}

/// The number whose numeral the bytes begin with, and where it ends: 1 to 5 digits, no zero in front but of 0 itself, no digit behind.
pub fn read_number(bytes: &[u8]) -> Option<(u16, usize)>
    ensures { Read bytes.now result }
{
    let k = digits(bytes);
    match &bytes[..k] {
        [] | [b'0', _, ..] => None,
        front => Some((number(front)?, k)),
    }
}

/// The number whose numeral the bytes begin with, and what stands behind it.
pub fn take_number(bytes: &[u8]) -> Option<(u16, &[u8])>
    ensures { MatchOption result (NoNumeral bytes.now) (λ p. Begins bytes.now p.0 p.1.now) }
{
    let (n, k) = read_number(bytes)?;
    Some((n, &bytes[k..]))
}
