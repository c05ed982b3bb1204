//! The environment in memory: with calls that are to fail, and without any fault.

mod call_plan;
mod held_files;
pub mod mem_files;
pub mod mem_sink;
pub mod mem_source;
pub mod sure_files;
pub mod sure_sink;
pub mod sure_source;
