//! The policy of control-flow integrity: only words of the code ranges are executed and none is written, and a jump by
//! register goes only from a label to a label that an edge joins to it.
#![tactic(auto)]

mod law;
mod policy;
mod table;
mod tag;

pub use law::{ignores_law, text_law};
pub use policy::Flow;
pub use tag::FlowTag;
