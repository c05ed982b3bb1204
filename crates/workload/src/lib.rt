//! The workload: a program in assembler source that is made by rule, of as many blocks as are asked for.
#![tactic(auto)]

mod kinds;
mod law;
mod source;

pub use law::length_law;
pub use source::write_workload;
