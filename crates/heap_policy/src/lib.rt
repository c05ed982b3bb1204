//! The policy of heap safety: each block of the heap has a number, and each pointer the number of its block. A load or a
//! store reaches the words of its pointer's block alone, while that block is live; one service hands blocks out, and
//! another takes them back.
#![tactic(auto)]

mod law;
mod policy;
mod services;
mod table;
mod tag;

pub use law::{ignores_law, malloc_law, text_law};
pub use policy::Heap;
pub use tag::{Content, HeapTag};
