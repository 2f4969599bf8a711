//! A book made from a checked book file.
ghost use Rattle.bookfile.specs.Checked.{Enters, EntersAll};

use crate::checked::BookFile;
use book::count::Count;
use book::kept::Book;
use book::refusal::Refusal;

impl BookFile<'_> {
    /// A new book of the count, with the derivations entered in turn. Of a file that was accepted none is refused.
    pub fn to_book(&self) -> Result<Book, Refusal>
        ensures enters { Enters self.now result }
        ensures all { EntersAll self.now result }
    {
        let count = Count::new(self.models)?;
        let mut book = Book::new(count);
        for derivation in self.derivations() {
            book.enter(derivation)?;
        }
        Ok(book)
    }
}
