//! Why harts stop.

use policy_trait::{Part, Why};
use rv_step::Fault;

/// Why a hart no longer runs.
#[derive(Clone, Copy, PartialEq, Eq)]
pub enum Stop {
    /// It called the exit service with this code.
    Exit(u32),
    /// One of the checks failed.
    Fault(Fault),
    /// A policy refused the rule or the service.
    Violation {
        /// The first policy, in canonical order, that refused.
        part: Part,
        /// Why it refused.
        why: Why,
        /// The address of the instruction.
        pc: u32,
    },
}
