//! Heap safety on every run: the block book, what each access reaches, and what each state keeps.
#![tactic(auto)]

mod law;

pub use law::{block_law, start_law};
