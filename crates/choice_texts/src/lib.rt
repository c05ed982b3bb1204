//! The texts of tags of all policies together: which tags they tell apart.
#![tactic(auto)]

mod law;

pub use law::text_law;
