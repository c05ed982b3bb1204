//! A policy's services over a view of memory: the plan, then the new tags of the plan's range, word by word.
#![tactic(auto)]

mod law;
mod serving;
mod view;

pub use law::{retag_law, service_law};
pub use serving::{Job, ServeEnd, serve};
pub use view::View;
