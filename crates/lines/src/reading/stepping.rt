//! The reader of the lines of a file.
ghost use Rattle.lines.specs.Reading.{Reads};

use crate::reading::splitting::first_line;
use crate::reading::{Line, Lines};

impl<'a> Lines<'a> {
    /// The reader of the lines of a file, before the first.
    pub fn new(bytes: &'a [u8]) -> Lines<'a>
        ensures { Reads bytes.now 0 result }
    {
        Lines {
            rest: bytes,
            place: 0,
        }
    }
}

impl<'a> Iterator for Lines<'a> {
    ghost use Rattle.std.specs.Iterator.{item_count};
    ghost use Rattle.lines.specs.Reading.{lines_left, Gives};

    type Item = Line<'a>;

    ghost next_gives = { Gives };

    ghost remaining = { item_count lines_left };

    fn next(&mut self) -> Option<Line<'a>> {
        if self.rest.is_empty() {
            return None;
        }
        let (bytes, rest) = first_line(self.rest);
        let place = self.place + 1;
        self.rest = rest;
        self.place = place;
        Some(Line { bytes, place })
    }
}
