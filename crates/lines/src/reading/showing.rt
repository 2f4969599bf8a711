//! What a line shows.
ghost use Rattle.std.specs.Prelude.{◌≡◌};
ghost use Rattle.lines.specs.Reading.{line_bytes, line_place};

use crate::reading::Line;

impl<'a> Line<'a> {
    /// The bytes of the line, without its end.
    pub fn bytes(&self) -> &'a [u8]
        ensures { result.now ≡ line_bytes self.now }
    {
        self.bytes
    }

    /// The place of the line in its file, from 1.
    pub fn place(&self) -> usize
        ensures { result ≡ line_place self.now }
    {
        self.place
    }
}
