//! Control flow on every run: the edge walk of each hart, and what each state keeps.
#![tactic(auto)]

mod law;

pub use law::{edge_law, safe_law, start_law};
