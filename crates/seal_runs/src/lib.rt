//! Sealing on every run: the key book, what each turn does in it, and what each state keeps.
#![tactic(auto)]

mod law;

pub use law::{key_law, start_law};
