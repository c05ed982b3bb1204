//! The history of the last turns: what each replaced, so that turns can be taken back, the newest first.
#![tactic(auto)]

mod log;
mod no_log;
mod record;
#[cfg(test)]
mod tests;
mod word_log;

pub use log::UndoLog;
pub use no_log::NoLog;
pub use record::{Record, Replaced, TurnStart};
pub use word_log::WordLog;
