//! Assembler source, read: the statements of its lines, or its first error.
//!
//! A line ends with a newline, which the last one may lack, and a carriage return before it is dropped. `#` begins a comment.
//! What stands before the first `:` is a name for the place, and what is left is a statement: a first word, and operands with
//! commas between them. Where several things are wrong, the first line that has one decides, and in it the first of these: a
//! byte that isn't allowed; an unknown word, or a bad name before `:`; an unknown directive; a wrong count of operands, an empty
//! one, or one that isn't in the form `n(r)` where this is asked for; and then, operand by operand, what is no register or no
//! number, or is neither name nor number. What depends on other lines or on a range isn't asked here.
#![tactic(auto)]

mod addresses;
mod directives;
mod errors;
mod instructions;
mod lines;
mod names;
mod operands;
mod pseudo;
mod source;
mod statements;
mod values;

pub use errors::{AsmEnd, AsmError, AsmErrorKind};
pub use lines::{line_of, statement_of};
pub use names::Name;
pub use source::read_source;
pub use statements::{Line, Statement, Target};
