//! Policies put together: two policies as one, a policy that may be off, and the policy that is nothing.
#![tactic(auto)]

mod both;
mod maybe;
mod nothing;
mod others;

pub use both::Both;
pub use maybe::Maybe;
pub use nothing::Nothing;
pub use others::{lend_all, rest_of};
