//! The files of the folder that a program is started in.
ghost use Rattle.folder.specs.Fronts.{DecidesBook, DecidesOrders};

use std::fs::File;
use std::io;
use std::io::Read;

/// How many bytes of a book file are read, one more than any book file has. They decide what a day prints.
pub fn book_bytes() -> u64
    ensures { DecidesBook result }
{
    8197
}

/// How many bytes of an order file are read, one more than any that is answered. They decide what a day prints.
pub fn order_bytes() -> u64
    ensures { DecidesOrders result }
{
    32769
}

/// The bytes of a file, `most` of them if it has more, none if it is missing.
pub fn read(rt: &HostRuntime, path: &str, most: u64) -> io::Result<Vec<u8>> {
    let mut bytes = Vec::new(rt.alloc());
    match File::open(rt, path) {
        Ok(file) => {
            file.take(most).read_to_end(&mut bytes)?;
            Ok(bytes)
        }
        Err(error) if error.kind() == io::ErrorKind::NotFound => Ok(bytes),
        Err(error) => Err(error),
    }
}
