//! Kept rules in sets: a key belongs to the set that its group's number falls to, and each set has its most recent rule first.
#![tactic(auto)]

mod cache;
mod numbers;
mod set;
#[cfg(test)]
mod tests;

pub use cache::SetCache;
