//! Compartments on every run: the owner book, where each hart comes from, and what each state keeps.
#![tactic(auto)]

mod law;

pub use law::{owner_law, safe_law, start_law};
