//! Opening a shop, and the calls that change it.
ghost use Rattle.std.specs.Prelude.{◌≡◌, [], length};
ghost use Rattle.book.specs.Counts.{models};
ghost use Rattle.book.specs.Refusals.{Answers};
ghost use Rattle.index.specs.Meanings.{nothing};
ghost use Rattle.history.specs.declared.call.Call.TheVariants as asked;
ghost use Rattle.shop.specs.Shops.{index_in, unknown_to, done, Unchanged, Unindexed, Shown, Follows, Keeps};

use crate::running::Shop;
use book::count::Count;
use book::derivation::Derivation;
use book::kept::Book;
use book::refusal::Refusal;
use history::fault::ShopFault;
use holds::sheet::HoldSheet;
use index::kind::Index;

impl<I: Index> Shop<I> {
    /// Opens a shop of the count: no derivations, no holds, and the index was never built.
    pub fn open(count: Count, mut index: I) -> Shop<I>
        ensures follows { Follows I.Index.meaning I.Index.refuses (models count) (I.Index.refuses index) [] result }
        ensures unbuilt { I.Index.meaning (index_in result) ≡ nothing }
    {
        index.clear();
        Shop {
            book: Book::new(count),
            sheet: HoldSheet::new(),
            index,
        }
    }

    // Refuses a model that is not below the count.
    pub(super) fn check_model(&self, model: u16) -> Result<(), Refusal>
        ensures { Answers (unknown_to self.now model) result }
    {
        self.book.count().check(model)
    }

    /// Enters a derivation into the book.
    pub fn enter(&mut self, derivation: Derivation) -> Result<(), ShopFault>
        ensures law { Keeps I.Index.meaning I.Index.refuses self.old (asked.Enter derivation) (done result) self.new }
        ensures refused { Unchanged result self.old self.new }
        ensures index { index_in self.new ≡ index_in self.old }
    {
        self.book.enter(derivation)?;
        Ok(())
    }

    /// Strikes a derivation from the book.
    pub fn strike(&mut self, derivation: Derivation) -> Result<(), ShopFault>
        ensures law { Keeps I.Index.meaning I.Index.refuses self.old (asked.Strike derivation) (done result) self.new }
        ensures refused { Unchanged result self.old self.new }
        ensures index { index_in self.new ≡ index_in self.old }
    {
        self.book.strike(derivation)?;
        Ok(())
    }

    /// Puts a model on hold, by a holder.
    pub fn hold(&mut self, model: u16, holder: u16) -> Result<(), ShopFault>
        ensures law { Keeps I.Index.meaning I.Index.refuses self.old (asked.Hold model holder) (done result) self.new }
        ensures refused { Unchanged result self.old self.new }
        ensures index { index_in self.new ≡ index_in self.old }
    {
        self.check_model(model)?;
        self.sheet.place(model, holder)?;
        Ok(())
    }

    /// Releases a model, by its holder.
    pub fn release(&mut self, model: u16, holder: u16) -> Result<(), ShopFault>
        ensures law { Keeps I.Index.meaning I.Index.refuses self.old (asked.Release model holder) (done result) self.new }
        ensures refused { Unchanged result self.old self.new }
        ensures index { index_in self.new ≡ index_in self.old }
    {
        self.check_model(model)?;
        self.sheet.release(model, holder)?;
        Ok(())
    }

    /// Builds the index from the book as it stands, in the work space, which may end with leftovers.
    pub fn reindex(&mut self, work: &mut [u16]) -> Result<(), ShopFault>
        ensures law { Keeps I.Index.meaning I.Index.refuses self.old (asked.Index (length work.old)) (done result) self.new }
        ensures refused { Unindexed I.Index.meaning result self.old self.new }
        ensures shows { Shown I.Index.meaning I.Index.refuses I.Index.shows self.old result self.new }
    {
        self.index.build(&self.book, work)?;
        self.book.mark_indexed();
        Ok(())
    }
}
