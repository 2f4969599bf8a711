//! One line of an order file, answered.
ghost use Rattle.std.specs.Prelude.{◌≡◌, ◌<◌, ◌≤◌, length};
ghost use Rattle.lines.specs.Computed.{form_of};
ghost use Rattle.orderfile.specs.Answering.{refused_at, Responds, Written, TooShort};

use index::kind::Index;
use lines::fault::LineFault;
use lines::parsing::parse;
use lines::reading::Line;
use lines::reply::{REPLY_ROOM, Reply, reply_of, write_reply};
use shop::running::Shop;

/// Where and why a line was refused.
#[derive(Clone, Copy, Debug, PartialEq, Eq)]
pub struct RefusedLine {
    pub place: usize,
    pub fault: LineFault,
}

/// What became of a line: how many bytes were written, and the refusal, if there was one.
#[derive(Clone, Copy, Debug, PartialEq, Eq)]
pub struct AnsweredLine {
    pub len: usize,
    pub refused: Option<RefusedLine>,
}

// Reads the form of a line and makes its call. An indexing is lent the whole work space.
fn respond<I: Index>(shop: &mut Shop<I>, line: &[u8], work: &mut [u16]) -> Reply
    ensures { Responds I.Index.meaning I.Index.refuses shop.old (length work.old) (form_of line.now) result shop.new }
{
    let form = parse(line).ok_or(LineFault::NoForm)?;
    let Some(answer) = shop.serve(form.call(work.len()), work) else {
        unreachable(); // no more is asked for than is lent
    };
    reply_of(answer)
}

// The refusal in a reply, with the place of its line.
fn refused_at(place: usize, reply: Reply) -> Option<RefusedLine>
    ensures { result ≡ refused_at place reply }
{
    reply.err().map(|fault| RefusedLine { place, fault })
}

/// Answers a line: makes its call on the shop, and writes its reply to the front of `out`.
/// With less than 16 bytes of room it is refused by 17, and neither shop nor buffer is touched.
pub fn answer_line<I: Index>(
    shop: &mut Shop<I>,
    line: &Line<'_>,
    work: &mut [u16],
    out: &mut [u8],
) -> AnsweredLine
    ensures written { 16 ≤ length out.old → Written I.Index.meaning I.Index.refuses shop.old (length work.old) line.now out.old result shop.new out.new }
    ensures short { length out.old < 16 → TooShort I.Index.meaning I.Index.refuses shop.old line.now out.old result shop.new out.new }
{
    let place = line.place();
    if out.len() < REPLY_ROOM {
        return AnsweredLine {
            len: 0,
            refused: refused_at(place, Err(LineFault::OutputTooShort)),
        };
    }
    let reply = respond(shop, line.bytes(), work);
    let Some(len) = write_reply(out, reply) else {
        unreachable();
    };
    AnsweredLine {
        len,
        refused: refused_at(place, reply),
    }
}
