//! Tables of the tags of all policies together, in which the tags of each policy are kept once, in a table of their own.
//! Two parts each stand in a type of its own, so that what names the whole table has no deep nest of types to prove.
#![tactic(auto)]

mod all;
mod parts;

pub use all::{AllTable, Whole};
pub use parts::{FirstParts, FirstTags, LastParts, LastTags};
