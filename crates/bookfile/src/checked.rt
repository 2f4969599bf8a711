//! A checked book file.
pub mod checking;
pub mod derivations;
pub mod entering;
pub mod reading;

/// A book file that was checked. It borrows the bytes of the two arrays of the file: all first models, and all second models.
#[derive(Clone, Copy)]
pub struct BookFile<'a> {
    models: u16,
    firsts: &'a [u8],
    seconds: &'a [u8],
}
