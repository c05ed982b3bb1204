//! The words of tags at which every look is allowed.
#![tactic(auto)]

mod open;

pub use open::OpenWords;
