//! The real environment, over std. It tells nothing of what the system gives or takes.

pub mod std_files;
pub mod std_sink;
pub mod std_source;
