//! What the project asks of the environment.

pub mod files;
pub mod sink;
pub mod source;
