//! The image file: the sizes, entries and lists that a machine starts from, in the project's image
//! format, versions 1 and 2.
//!
//! `read_image` takes a file's bytes and gives the image whose one spelling they are, or the first of the
//! format's conditions, in the order of reading, that they fail. An `Image` keeps those conditions for
//! whoever reads it. `prefix_law` says what becomes of a file that is cut.
//!
//! `Segments` are built word by word, `Image::new` makes an image of parts that meet the conditions, and
//! `write_image` writes its one spelling, so that `read_image` gives the same image again.
#![tactic(auto)]

mod compartments;
mod errors;
mod fields;
mod image;
mod law;
mod lists;
mod masks;
mod migrating;
mod parts;
mod reading;
mod room;
mod rows;
mod segments;
mod sizes;
mod version;
mod writing;

pub use compartments::{
    CompartmentRange, CompartmentRanges, CompartmentRows, OwnedRange, WideCompartmentRange,
};
pub use errors::{ImageEnd, ImageError};
pub use fields::{MOST_HARTS, MOST_RAM};
pub use image::Image;
pub use law::prefix_law;
pub use parts::ImageParts;
pub use reading::read_image;
pub use rows::{Edge, Label, WordRange};
pub use segments::Segments;
pub use version::Version;
pub use writing::write_image;
