//! What a policy is: the types that pass between a machine and its policy, the trait `Policy`, and its laws. What passes
//! can have its tags changed by one function, a `TagMap`.
//!
//! A machine asks its policy at each turn for the rule of the instruction's group and five tags, and for the services
//! that the policy offers by `ecall`. The whole meaning of a policy is one record of functions, `PolicyModel`.
#![tactic(auto)]

mod birth;
mod maps;
mod policy;
mod rules;
mod services;
mod sets;

pub use birth::Birth;
pub use maps::TagMap;
pub use policy::Policy;
pub use rules::{Ins, InsAt, Mask, Outs, Part, Refused, Shape, Why};
pub use services::{Answer, Args, Plan, PlanEnd, Rest, Words};
pub use sets::CompartmentSet;
