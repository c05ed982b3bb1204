//! Where the lines of an assembler source lie: the version and sizes that it asks for, and the places of lines and names.
//!
//! A place is a byte address, a multiple of 4. What holds for the whole image is looked at first, wherever it stands: the first
//! `.version`, then the first `.harts`, and then the first `.ram`. Then the lines are placed one behind the other, from 0 on, by
//! the words that they emit. An `.org` moves the place on. What is wrong with a line is told by the first of these: a name that
//! has a place already; a directive that may stand once only, or an `.org` that goes back; a place or a number outside its
//! range. The first line that has an error decides.
#![tactic(auto)]

mod counts;
mod layout;
mod names;
mod places;
mod seen;
mod sizes;

pub use layout::{Layout, layout_of};
pub use names::names_of;
