//! The words of assembler source as tables: which form a statement's first word asks for, and which register a name means.
#![tactic(auto)]

mod forms;
mod registers;
mod rows;
mod words;

pub use forms::{
    BranchOperation, Directive, Form, ImmediateOperation, LoadOperation, RegisterOperation,
    ShiftOperation, StoreOperation, UpperOperation,
};
pub use registers::register_of;
pub use words::form_of;
