//! The command line of `pump`: what its words ask for.
#![tactic(auto)]

mod command;
mod law;
mod task;
mod values;

pub use law::match_law;
pub use task::{
    DisassembleTask, ElfTask, LoadTask, Making, RunTask, SaveTask, ShellTask, Task, WordsEnd,
    read_task,
};
