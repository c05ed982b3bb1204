//! What a service is asked with, and what it plans.

use crate::rules::Refused;

/// What a service is asked with: the values and tags of a0, a1 and a2, and the bytes of memory.
#[derive(Clone, Copy, PartialEq, Eq)]
pub struct Args<T> {
    /// The value of a0; a1 and a2 likewise.
    pub a0: u32,
    pub a1: u32,
    pub a2: u32,
    /// The tag of a0; `t1` and `t2` are those of a1 and a2.
    pub t0: T,
    pub t1: T,
    pub t2: T,
    /// The bytes of memory.
    pub ram: u32,
}

/// A range of memory words: `count` words from the address `base` on.
#[derive(Clone, Copy, PartialEq, Eq)]
pub struct Words {
    pub base: u32,
    pub count: u32,
}

/// The tag of a service's answer in the parts of a product that do not own the service.
#[derive(Clone, Copy, PartialEq, Eq)]
pub enum Rest {
    /// Each part's plain tag.
    Plain,
    /// Each part's tag of a0.
    AsA0,
}

/// What a service answers in a0.
#[derive(Clone, Copy, PartialEq, Eq)]
pub struct Answer<T> {
    pub value: u32,
    pub tag: T,
    pub rest: Rest,
}

/// What a service will do when nothing refuses it.
#[derive(Clone, Copy, PartialEq, Eq)]
pub struct Plan<T> {
    /// The number of the service.
    pub service: u32,
    /// The pc's tag that the rule gave.
    pub pc: T,
    /// What the policy keeps for its `retag` and `commit`.
    pub note: u32,
    /// The words that the service retags.
    pub range: Option<Words>,
    /// Whether these words become 0.
    pub zero: bool,
    /// What goes into a0; without an answer a0 stays.
    pub answer: Option<Answer<T>>,
}

/// Why there is no plan.
#[derive(Clone, Copy, PartialEq, Eq)]
pub enum PlanEnd {
    /// A policy refuses.
    Refused(Refused),
    /// The service has used up its numbers.
    Spent,
}
