//! A whole day: from the bytes of a book file and of an order file to the bytes of the answers.
ghost use Rattle.std.specs.Prelude.{◌≡◌, ◌*◌, ◌≤◌, length};
ghost use Rattle.text.specs.Placing.{placed};
ghost use Rattle.lines.specs.Lines.{lines_of};
ghost use Rattle.orderfile.specs.declared.day.DayFault.TheVariants.{Book as OfBook};
ghost use Rattle.orderfile.specs.Days.{day_number, fault_word, fault_text, Opens, AnswersLines, Prints};
ghost use Rattle.orderfile.specs.Laws.{Lawfully};

use crate::answering::answer_line;
use bookfile::checked::checking::check;
use bookfile::refusal::{FileRefusal, WriteRefusal};
use index::kind::Index;
use lines::reading::Lines;
use lines::reading::counting::count_lines;
use lines::reply::REPLY_ROOM;
use shop::loading::load;
use shop::running::Shop;
use text::writing::write_numbered;

/// The bytes of a day's two files.
#[derive(Clone, Copy)]
pub struct Day<'a> {
    pub book: &'a [u8],
    pub orders: &'a [u8],
}

/// Why no line of a day is answered.
#[derive(Clone, Copy, Debug, PartialEq, Eq)]
pub enum DayFault {
    Book(FileRefusal),
    /// The order file is over 32,768 bytes.
    OrdersTooLong,
}

impl DayFault {
    /// The number that the fault is told by.
    pub fn number(self) -> u8
        ensures { result ≡ day_number self }
    {
        match self {
            DayFault::Book(refusal) => refusal.number(),
            DayFault::OrdersTooLong => 19,
        }
    }

    // The word that stands before the number.
    fn word(self) -> &'static [u8]
        ensures { result.now ≡ fault_word self }
    {
        match self {
            DayFault::Book(_) => b"book ",
            DayFault::OrdersTooLong => b"no ",
        }
    }
}

impl From<FileRefusal> for DayFault {
    ghost from_gives = { λ e r. r ≡ OfBook e };

    fn from(file: FileRefusal) -> DayFault {
        DayFault::Book(file)
    }
}

// Opens the shop of a day: the book file is checked, then the order file's length, and the derivations are entered.
fn open_day<I: Index + Drop>(index: I, day: Day<'_>) -> Result<Shop<I>, DayFault>
    ensures { Opens I.Index.meaning I.Index.refuses (I.Index.refuses index) day.entry.book.now day.entry.orders.now result }
{
    let file = check(day.book)?;
    if day.orders.len() > 32768 {
        return Err(DayFault::OrdersTooLong);
    }
    let Ok(shop) = load(&file, index) else {
        unreachable(); // an accepted file is entered whole
    };
    Ok(shop)
}

// Writes the one line of a day that is not answered, for which there is room.
#[tactic(auto, using(crate::proofs::Faults::fault_short))]
fn write_fault(out: &mut [u8], fault: DayFault) -> usize
    requires { 16 ≤ length out.old }
    ensures end { result ≡ length (fault_text fault) }
    ensures bytes { out.new ≡ placed out.old 0 (fault_text fault) }
    ensures short { result ≤ 16 }
{
    let Some(len) = write_numbered(out, fault.word(), fault.number() as u16) else {
        unreachable();
    };
    len
}

// Answers the lines in turn, for which there is room, and tells how many bytes the replies have.
fn answer_lines<I: Index>(
    shop: &mut Shop<I>,
    orders: &[u8],
    work: &mut [u16],
    out: &mut [u8],
) -> usize
    requires { 16 * length (lines_of orders.now) ≤ length out.old }
    ensures { AnswersLines I.Index.meaning I.Index.refuses shop.old (length work.old) (lines_of orders.now) out.old result out.new }
{
    let mut end = 0;
    for line in Lines::new(orders) {
        end += answer_line(shop, &line, work, &mut out[end..]).len;
    }
    end
}

/// Answers a day: opens a shop from the book file, answers each line of the order file in turn, and writes the replies
/// to the front of `out`; or writes the one line that says why none is answered. It tells how many bytes were written.
/// A buffer of less than 16 bytes a line, or less than 16, is refused by 17, and nothing is touched.
pub fn answer_day<I: Index + Drop>(
    index: I,
    day: Day<'_>,
    work: &mut [u16],
    out: &mut [u8],
) -> Result<usize, WriteRefusal>
    ensures prints { Prints I.Index.CAPACITY (length work.old) day.entry.book.now day.entry.orders.now out.old result out.new }
    ensures law { Lawfully I.Index.CAPACITY (length work.old) day.entry.book.now day.entry.orders.now }
{
    let lines = count_lines(day.orders);
    if out.len() < REPLY_ROOM || out.len() / REPLY_ROOM < lines {
        return Err(WriteRefusal::TooShort);
    }
    Ok(match open_day(index, day) {
        Err(fault) => write_fault(out, fault),
        Ok(mut shop) => answer_lines(&mut shop, day.orders, work, out),
    })
}
