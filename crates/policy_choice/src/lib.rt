//! The policies that can be chosen, and all of them as one policy.
#![tactic(auto)]

mod all;
mod basis;
mod choice;
mod law;
mod parts;
mod tag;

pub use all::{All, Together, choose};
pub use basis::Basis;
pub use choice::{Choice, read_choice};
pub use law::{flat_law, nothing_law};
pub use tag::{AllTag, PartTags};
