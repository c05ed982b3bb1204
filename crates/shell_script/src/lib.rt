//! A session of the monitor shell over an input: line after line, each executed as its newline comes.
#![tactic(auto)]

mod law;
mod lines;
mod reading;

pub use law::script_law;
pub use lines::{obey_bytes, obey_rest};
pub use reading::{ShellCut, ShellEnd, obey_input};
