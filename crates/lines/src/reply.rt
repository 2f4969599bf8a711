//! The line that answers a line.
ghost use Rattle.std.specs.Prelude.{◌≡◌};
ghost use Rattle.lines.specs.Replies.{reply_text, reply_of, Replied};

use crate::fault::LineFault;
use history::answer::{Answer, Outcome};
use text::writing::{write_bytes, write_numbered};

/// What a line is answered: what its call comes to, or the fault that the line is refused with.
pub type Reply = Result<Outcome, LineFault>;

/// The room that a reply asks for: no line that answers is longer.
pub const REPLY_ROOM: usize = 16;

/// The reply that an answer of a shop comes to.
pub fn reply_of(answer: Answer) -> Reply
    ensures { result ≡ reply_of answer }
{
    answer.map_err(LineFault::from)
}

/// Writes the line of a reply to the front of `out`, and tells how long it is. A buffer of under 16 bytes stays as it is.
pub fn write_reply(out: &mut [u8], reply: Reply) -> Option<usize>
    ensures { Replied (reply_text reply) out.old result out.new }
{
    if out.len() < REPLY_ROOM {
        return None;
    }
    match reply {
        Ok(Outcome::Done) => write_bytes(out, 0, b"ok\n"),
        Ok(Outcome::Carve) => write_bytes(out, 0, b"carve\n"),
        Ok(Outcome::Stop(stop)) => write_numbered(out, b"stop ", stop.model),
        Err(fault) => write_numbered(out, b"no ", fault.number() as u16),
    }
}
