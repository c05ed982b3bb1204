//! How many rules may be kept, and how: in sets of so many ways.
#![tactic(auto)]

mod size;

pub use size::CacheSize;
