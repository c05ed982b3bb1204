//! Runs in two worlds that differ in secret values alone: whatever policy is chosen beside secrecy, both show the same.
#![tactic(auto)]

mod law;

pub use law::{rounds_law, run_law};
