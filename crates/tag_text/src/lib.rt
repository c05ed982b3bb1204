//! The texts of stops: the line by which a hart's stop is told.
#![tactic(auto)]

mod texts;

pub use texts::{write_number, write_stop_line};
