//! A run of two harts under all four policies, computed: the laws on runs are not empty.
#![tactic(auto)]

mod law;

pub use law::{counted_law, example_law};
