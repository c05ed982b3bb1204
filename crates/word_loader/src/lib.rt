//! From an image to an engine that keeps rules, at its start: every tag gets its word.
#![tactic(auto)]

mod start;
mod words;

pub use start::start_cached;
