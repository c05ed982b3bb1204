//! Tests of the languages that are read: the assembler's sources, the shell's commands, and rows.
#![tactic(auto)]

mod answers;
#[cfg(test)]
mod commands;
#[cfg(test)]
mod rows;
#[cfg(test)]
mod sources;
