//! A shop opened from a book file.
ghost use Rattle.shop.specs.Loads.{Loads, Unbuilt, Reloads};

use crate::running::Shop;
use book::count::Count;
use bookfile::checked::BookFile;
use history::fault::ShopFault;
use index::kind::Index;

/// Opens a shop of the file's count and enters the file's derivations in turn. Of a file that was accepted none is refused.
pub fn load<I: Index + Drop>(file: &BookFile<'_>, index: I) -> Result<Shop<I>, ShopFault>
    ensures follows { Loads I.Index.meaning I.Index.refuses file.now (I.Index.refuses index) result }
    ensures unbuilt { Unbuilt I.Index.meaning result }
    ensures bytes { Reloads file.now result }
{
    let count = Count::new(file.models())?;
    let mut shop = Shop::open(count, index);
    for derivation in file.derivations() {
        shop.enter(derivation)?;
    }
    Ok(shop)
}
