//! A day's answers.
ghost use Rattle.std.specs.Prelude.{◌≡◌, IfOk};
ghost use Rattle.orderfile.specs.Days.{printed};

use index::kind::{Index, WORK};
use lines::reading::counting::count_lines;
use lines::reply::REPLY_ROOM;
use orderfile::day::{Day, answer_day};
use std::alloc::{AllocError, Global};

/// What a day prints, over an index with a full work space.
pub fn answers<I: Index + Drop>(heap: Global, index: I, day: Day<'_>) -> Result<Vec<u8>, AllocError>
    ensures { IfOk result (λ v. v.items ≡ printed I.Index.CAPACITY 32768 day.entry.book.now day.entry.orders.now) }
{
    let room = count_lines(day.orders)
        .saturating_mul(REPLY_ROOM)
        .max(REPLY_ROOM);
    let mut work = vec![in heap; 0u16; WORK]?;
    let mut out = vec![in heap; 0u8; room]?;
    let Ok(len) = answer_day(index, day, work.as_mut_slice(), out.as_mut_slice()) else {
        unreachable(); // there is room for a reply to each line
    };
    out.truncate(len);
    Ok(out)
}
