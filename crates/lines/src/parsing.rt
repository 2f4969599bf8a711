//! From the bytes of a line to what it says.
ghost use Rattle.std.specs.Prelude.{◌≡◌, ◌↔◌, [], ◌∷◌, Some, MatchOption};
ghost use Rattle.lines.specs.Computed.{form_of};
ghost use Rattle.lines.specs.Forms.{numbers_of, Small};
ghost use Rattle.lines.specs.Texts.{listed, text, Parsed, Spaced, NoNext, NoOne, NoTwo};
ghost use Rattle.lines.specs.declared.form.Form.{Form};

use crate::form::Form;
use book::derivation::Derivation;
use text::numeral::take_number;

// The number behind a space at the front, and what stands behind it.
fn next_number(bytes: &[u8]) -> Option<(u16, &[u8])>
    ensures { MatchOption result (NoNext bytes.now) (λ p. Spaced bytes.now p.0 p.1.now) }
{
    match bytes {
        [b' ', rest @ ..] => take_number(rest),
        _ => None,
    }
}

// One number behind a space, and nothing else.
fn one_number(bytes: &[u8]) -> Option<u16>
    ensures { MatchOption result (NoOne bytes.now) (λ v. bytes.now ≡ listed (v ∷ [])) }
{
    let (v, rest) = next_number(bytes)?;
    rest.is_empty().then_some(v)
}

// Two numbers, each behind a space, and nothing else.
fn two_numbers(bytes: &[u8]) -> Option<(u16, u16)>
    ensures { MatchOption result (NoTwo bytes.now) (λ p. bytes.now ≡ listed (p.0 ∷ (p.1 ∷ []))) }
{
    let (u, rest) = next_number(bytes)?;
    let v = one_number(rest)?;
    Some((u, v))
}

// What a letter says, and the bytes behind it.
fn form(letter: u8, rest: &[u8]) -> Option<Form>
    ensures { Parsed (letter ∷ rest.now) result }
{
    match letter as char {
        'E' => two_numbers(rest).map(|(from, to)| Form::Enter(Derivation { from, to })),
        'S' => two_numbers(rest).map(|(from, to)| Form::Strike(Derivation { from, to })),
        'I' => rest.is_empty().then_some(Form::Index),
        'H' => two_numbers(rest).map(|(model, holder)| Form::Hold { model, holder }),
        'R' => two_numbers(rest).map(|(model, holder)| Form::Release { model, holder }),
        'C' => one_number(rest).map(|model| Form::Order { model }),
        _ => None,
    }
}

/// The form whose text the line is: one exactly if there is one.
pub fn parse(line: &[u8]) -> Option<Form>
    ensures parsed { Parsed line.now result }
    ensures exactly { (f : Form) → Small (numbers_of f) → (result ≡ Some f) ↔ (line.now ≡ text f) }
    ensures computed { result ≡ form_of line.now }
{
    let (letter, rest) = line.split_first()?;
    form(*letter, rest)
}
