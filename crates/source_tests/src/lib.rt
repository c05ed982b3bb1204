//! Tests of the assembler, of the texts that words are shown as, and of workloads, which are assembled.
#![tactic(auto)]

mod answers;
#[cfg(test)]
mod images;
pub mod numbers;
#[cfg(test)]
mod places;
#[cfg(test)]
mod texts;
#[cfg(test)]
mod workloads;
