//! The command language of the monitor shell: what a line asks for, or why it is refused, and a reader that takes a stream of
//! bytes as lines.
#![tactic(auto)]

mod bad_command;
mod command;
mod grammar;
mod law;
mod lines;
mod operands;
mod values;
mod words;

pub use bad_command::BadCommand;
pub use command::Command;
pub use grammar::read_command;
pub use law::stream_law;
pub use lines::Lines;
pub use values::{Bytes, Digits};
