//! What the lines of a source say.

use crate::names::Name;
use asm_table::{
    BranchOperation, ImmediateOperation, LoadOperation, RegisterOperation, ShiftOperation,
    StoreOperation, UpperOperation,
};
use rv_decode::Register;

/// An absolute address, or the value of a word: the place of a name, or a number.
#[derive(Drop)]
pub enum Target<'a> {
    Name(Name<'a>),
    Number(i64),
}

/// A statement, with the forms that stand for one instruction as that instruction. Numbers are as the source writes them, from
/// -2^31 to 2^32 - 1, and the sets of a `.comp` up to 2^128 - 1, whatever range they have to lie in.
#[derive(Drop)]
pub enum Statement<'a> {
    /// `add rd, rs1, rs2` and its like.
    Registers {
        operation: RegisterOperation,
        rd: Register,
        rs1: Register,
        rs2: Register,
    },
    /// `addi rd, rs1, n` and its like.
    Immediate {
        operation: ImmediateOperation,
        rd: Register,
        rs1: Register,
        number: i64,
    },
    /// `slli rd, rs1, n` and its like.
    Shift {
        operation: ShiftOperation,
        rd: Register,
        rs1: Register,
        number: i64,
    },
    /// `lui rd, n` and its like.
    Upper {
        operation: UpperOperation,
        rd: Register,
        number: i64,
    },
    /// `lw rd, n(rs1)` and its like.
    Load {
        operation: LoadOperation,
        rd: Register,
        rs1: Register,
        offset: i64,
    },
    /// `sw rs2, n(rs1)` and its like.
    Store {
        operation: StoreOperation,
        rs2: Register,
        rs1: Register,
        offset: i64,
    },
    /// `beq rs1, rs2, T` and its like.
    Branch {
        operation: BranchOperation,
        rs1: Register,
        rs2: Register,
        target: Target<'a>,
    },
    /// `jal rd, T`.
    Jump {
        rd: Register,
        target: Target<'a>,
    },
    /// `jalr rd, n(rs1)`.
    JumpRegister {
        rd: Register,
        rs1: Register,
        offset: i64,
    },
    /// `fence`.
    Fence,
    /// `ecall`.
    Ecall,
    /// `ebreak`.
    Ebreak,
    /// `li rd, n`: one or two instructions that write the number.
    LoadNumber {
        rd: Register,
        number: i64,
    },
    /// `la rd, T`: two instructions that write the address.
    LoadAddress {
        rd: Register,
        target: Target<'a>,
    },
    /// `.version N`: the version of the image's file.
    Version(i64),
    /// `.harts N`: how many harts there are.
    Harts(i64),
    /// `.ram N`: how many bytes of RAM there are.
    Ram(i64),
    /// `.heap B, N`: where the heap region lies, and how many bytes it has.
    Heap {
        base: i64,
        bytes: i64,
    },
    /// `.entry H, T`: where a hart starts.
    Entry {
        hart: i64,
        target: Target<'a>,
    },
    /// `.org N`: the place of what comes next.
    Origin(i64),
    /// `.word T`: a word.
    Word(Target<'a>),
    /// `.zero N`: so many words of 0.
    Zeros(i64),
    /// `.text`: the words from here on are code.
    Text,
    /// `.data`: the words from here on are no code.
    Data,
    /// `.label ID`: the label of the next word.
    Label(i64),
    /// `.edge S, D`: an allowed way from one label to another.
    Edge {
        source: i64,
        destination: i64,
    },
    /// `.comp O, I, W`: the compartment of the words from here on, and the sets of those that may go into them and write them, a
    /// bit for each compartment. `None` is a negative number, which is in no version's range.
    Compartment {
        owner: i64,
        into: Option<u128>,
        write: Option<u128>,
    },
}

/// A line.
#[derive(Drop)]
pub struct Line<'a> {
    /// Its number, counted from 1.
    pub number: u64,
    /// The name that gets its place here.
    pub label: Option<Name<'a>>,
    /// The statement.
    pub statement: Option<Statement<'a>>,
}
