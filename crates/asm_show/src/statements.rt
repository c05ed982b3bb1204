//! Writers of statements, which append them to a line: one for each list of operands.

ghost use Rattle.std.specs.Prelude.{◌≡◌, ◌+◌, ◌≤◌, ◌++◌, codes, length};
ghost use Rattle.arrayvec.specs.ArrayVec.{array_vec_len};
ghost use Rattle.asm_show.specs.Operands.{register};
ghost use Rattle.asm_show.specs.Statements.{statement_start, branch, jump, plain_word, with_amount, with_immediate, with_place, with_registers, with_upper};

use crate::operands::{
    write_amount, write_immediate, write_place, write_register, write_target, write_upper,
    write_whole,
};
use pump_words::{Line, write_text};
use rv_decode::{BranchOffset, Immediate, JumpOffset, Register, ShiftAmount, UpperImmediate};

/// Appends a name, its first operand, and what stands before the next one.
fn write_first(line: &mut Line, name: &[u8], r: Register)
    requires { array_vec_len line.old + length name.now + 6 ≤ 512 }
    ensures text { line.new.items ≡ line.old.items ++ statement_start name.now r }
    ensures short { array_vec_len line.new ≤ array_vec_len line.old + length name.now + 6 }
{
    write_text(line, name);
    write_text(line, b" ");
    write_register(line, r);
    write_text(line, b", ");
}

/// Appends an operand that is not the first one, and what stands before the next one.
fn write_next(line: &mut Line, r: Register)
    requires { array_vec_len line.old + 5 ≤ 512 }
    ensures text { line.new.items ≡ line.old.items ++ (register r ++ codes ", ") }
    ensures short { array_vec_len line.new ≤ array_vec_len line.old + 5 }
{
    write_register(line, r);
    write_text(line, b", ");
}

/// Appends a name with three registers.
pub(crate) fn write_with_registers(
    line: &mut Line,
    name: &[u8],
    rd: Register,
    rs1: Register,
    rs2: Register,
)
    requires { array_vec_len line.old + length name.now + 14 ≤ 512 }
    ensures text { line.new.items ≡ line.old.items ++ with_registers name.now rd rs1 rs2 }
    ensures short { array_vec_len line.new ≤ array_vec_len line.old + length name.now + 14 }
{
    write_first(line, name, rd);
    write_next(line, rs1);
    write_register(line, rs2);
}

/// Appends a name with two registers and an immediate.
pub(crate) fn write_with_immediate(
    line: &mut Line,
    name: &[u8],
    rd: Register,
    rs1: Register,
    imm: Immediate,
)
    requires { array_vec_len line.old + length name.now + 16 ≤ 512 }
    ensures text { line.new.items ≡ line.old.items ++ with_immediate name.now rd rs1 imm }
    ensures short { array_vec_len line.new ≤ array_vec_len line.old + length name.now + 16 }
{
    write_first(line, name, rd);
    write_next(line, rs1);
    write_immediate(line, imm);
}

/// Appends a name with two registers and the amount of a shift.
pub(crate) fn write_with_amount(
    line: &mut Line,
    name: &[u8],
    rd: Register,
    rs1: Register,
    imm: ShiftAmount,
)
    requires { array_vec_len line.old + length name.now + 13 ≤ 512 }
    ensures text { line.new.items ≡ line.old.items ++ with_amount name.now rd rs1 imm }
    ensures short { array_vec_len line.new ≤ array_vec_len line.old + length name.now + 13 }
{
    write_first(line, name, rd);
    write_next(line, rs1);
    write_amount(line, imm);
}

/// Appends a name with a register and the upper 20 bits of a word.
pub(crate) fn write_with_upper(line: &mut Line, name: &[u8], rd: Register, imm: UpperImmediate)
    requires { array_vec_len line.old + length name.now + 13 ≤ 512 }
    ensures text { line.new.items ≡ line.old.items ++ with_upper name.now rd imm }
    ensures short { array_vec_len line.new ≤ array_vec_len line.old + length name.now + 13 }
{
    write_first(line, name, rd);
    write_upper(line, imm);
}

/// Appends a name with a register and an offset from what another register holds.
pub(crate) fn write_with_place(
    line: &mut Line,
    name: &[u8],
    r: Register,
    base: Register,
    imm: Immediate,
)
    requires { array_vec_len line.old + length name.now + 16 ≤ 512 }
    ensures text { line.new.items ≡ line.old.items ++ with_place name.now r base imm }
    ensures short { array_vec_len line.new ≤ array_vec_len line.old + length name.now + 16 }
{
    write_first(line, name, r);
    write_place(line, imm, base);
}

/// Appends a branch at `pc`.
pub(crate) fn write_branch(
    line: &mut Line,
    name: &[u8],
    pc: u32,
    rs1: Register,
    rs2: Register,
    imm: BranchOffset,
)
    requires { array_vec_len line.old + length name.now + 21 ≤ 512 }
    ensures text { line.new.items ≡ line.old.items ++ branch name.now pc rs1 rs2 imm }
    ensures short { array_vec_len line.new ≤ array_vec_len line.old + length name.now + 21 }
{
    write_first(line, name, rs1);
    write_next(line, rs2);
    write_target(line, pc, imm.word());
}

/// Appends a jump at `pc`.
pub(crate) fn write_jump(line: &mut Line, name: &[u8], pc: u32, rd: Register, imm: JumpOffset)
    requires { array_vec_len line.old + length name.now + 16 ≤ 512 }
    ensures text { line.new.items ≡ line.old.items ++ jump name.now pc rd imm }
    ensures short { array_vec_len line.new ≤ array_vec_len line.old + length name.now + 16 }
{
    write_first(line, name, rd);
    write_target(line, pc, imm.word());
}

/// Appends a word that is written as a number.
pub(crate) fn write_plain_word(line: &mut Line, word: u32)
    requires { array_vec_len line.old + 16 ≤ 512 }
    ensures text { line.new.items ≡ line.old.items ++ plain_word word }
    ensures len { array_vec_len line.new ≡ array_vec_len line.old + 16 }
{
    write_text(line, b".word ");
    write_whole(line, word);
}
