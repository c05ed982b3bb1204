//! Tables of pairs of tags, with a table of its own for each side of them, so that a tag of many pairs is kept once; and
//! tables of tags that stand for those of another table.
#![tactic(auto)]

mod coming;
mod counts;
mod mapped;
mod pairs;

pub use mapped::{Mapped, TagBijection};
pub use pairs::Pairs;
