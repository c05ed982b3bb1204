//! Tests of the rules and the services of each policy, of the live blocks of a heap, and of what passes between a machine and
//! its policy.
#![tactic(auto)]

#[cfg(test)]
mod blocks;
#[cfg(test)]
mod compartments;
#[cfg(test)]
mod flow;
#[cfg(test)]
mod heap;
mod raising;
mod refusals;
#[cfg(test)]
mod sealing;
#[cfg(test)]
mod secrecy;
mod steps;
#[cfg(test)]
mod tags;
#[cfg(test)]
mod taint;
