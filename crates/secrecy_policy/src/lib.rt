//! The policy of secrecy: bytes of a secret file reach neither output nor anything else that a run shows. What is computed from a
//! secret value is secret. No address, branch, jump, service, executed word or byte that is put may be secret; and since a check that
//! fails tells something of the values that it looks at, no turn looks at a secret before its rule.
#![tactic(auto)]

mod law;
mod policy;
mod start;
mod table;
mod tag;

pub use law::{ignores_law, text_law};
pub use policy::Secrecy;
pub use tag::SecretTag;
