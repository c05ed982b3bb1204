//! What `read_image` answers in place of an image.

ghost use Rattle.std.specs.Prelude.{◌≡◌};
ghost use Rattle.image_format.specs.declared.errors.ImageEnd.TheVariants.{Memory};

use std::alloc::{AllocError, AllocFailed};
use thiserror::Error;

/// Why bytes are refused as a file of the project's image format, version 1 or 2: the first of its
/// conditions, in the order of reading, that they fail.
///
/// Lengths and offsets are in bytes, and offsets count from the file's first byte. The lists have
/// numbers in the file's order: 1 the segments, 2 the code ranges, 3 the labels, 4 the edges and 5 the
/// compartment ranges. A list's rows are counted from 0.
#[derive(Clone, Copy, Debug, PartialEq, Eq, Error)]
pub enum ImageError {
    /// The file doesn't begin with the four bytes `PUMP`.
    #[error("magic")]
    Magic,
    /// The version, a number of two bytes behind the magic, is this, and neither 1 nor 2.
    #[error("version {0}")]
    Version(u16),
    /// The file ends before a number that is due: the file's length.
    #[error("short at {0}")]
    Short(usize),
    /// A numbered field fails its condition: the field's number, and the offset of its first byte.
    ///
    /// The fields are 1 the number of harts, 2 the bytes of the RAM, 3 the heap base, 4 the heap's
    /// bytes, 5 an entry, 6 a segment's address, 7 its number of words, 8 a code range's address, 9 its
    /// number of words, 10 a label's address, 12 a compartment range's address, 13 its number of words,
    /// 14 its owner, which is at most 31 in version 1 and at most 127 in version 2.
    #[error("field {0} at {1}")]
    Field(u8, usize),
    /// A row doesn't stand in its list's order behind the row before it: the list's number, and the
    /// row's, which is 1 at least.
    #[error("order {0} row {1}")]
    Order(u8, u32),
    /// Bytes stand behind the last list: the offset of the first of them.
    #[error("trailing at {0}")]
    Trailing(usize),
}

/// How reading an image ends without one.
#[derive(Clone, Copy)]
pub enum ImageEnd {
    /// The bytes are the file of no image that is taken, for this reason.
    Bad(ImageError),
    /// Memory ran out, which says nothing of the bytes.
    Memory,
}

impl From<AllocError> for ImageEnd {
    ghost from_gives = { λ _ e. e ≡ Memory };

    fn from(_e: AllocError) -> ImageEnd {
        ImageEnd::Memory
    }
}

impl<T: Drop> From<AllocFailed<T>> for ImageEnd {
    ghost from_gives = { λ _ e. e ≡ Memory };

    fn from(_e: AllocFailed<T>) -> ImageEnd {
        ImageEnd::Memory
    }
}
