//! The text of each instruction.

ghost use Rattle.std.specs.Prelude.{◌≡◌, ◌+◌, ◌≤◌, ◌++◌};
ghost use Rattle.arrayvec.specs.ArrayVec.{array_vec_len};
ghost use Rattle.rv_decode.specs.Decoding.{instr_of_word};
ghost use Rattle.asm_show.specs.Instructions.{fence_text, instr_text, text_at};

use crate::statements::{
    write_branch, write_jump, write_plain_word, write_with_amount, write_with_immediate,
    write_with_place, write_with_registers, write_with_upper,
};
use pump_words::{Line, write_text};
use rv_decode::{FenceWord, Instr, decode};

/// Appends the text of the word at the address `pc`: the statement of assembler source that stands for it there.
///
/// Registers are `x0` to `x31`, and `, ` stands between two operands. Immediates of 12 bits are signed decimal, and amounts of
/// shifts decimal. LUI and AUIPC have their upper 20 bits, as `0x` and five hexadecimal digits in upper case; a branch and JAL
/// have the address that they go to, as `0x` and eight. A word that is no instruction, and a FENCE other than 0FF0000F (which
/// is `fence` with no operand), is `.word` with the word as `0x` and eight digits. No text has more than 32 bytes, for which
/// the line must have room.
#[tactic(auto, unfolding(crate::specs::Instructions::text_at))]
pub fn show_instr(pc: u32, word: u32, line: &mut Line)
    requires { array_vec_len line.old + 32 ≤ 512 }
    ensures text { line.new.items ≡ line.old.items ++ text_at pc word (instr_of_word word) }
    ensures short { array_vec_len line.new ≤ array_vec_len line.old + 32 }
{
    match decode(word) {
        Some(instr) => write_instr(line, pc, instr),
        None => write_plain_word(line, word),
    }
}

/// The statement of an instruction at `pc`.
fn write_instr(line: &mut Line, pc: u32, instr: Instr)
    requires { array_vec_len line.old + 32 ≤ 512 }
    ensures text { line.new.items ≡ line.old.items ++ instr_text pc instr }
    ensures short { array_vec_len line.new ≤ array_vec_len line.old + 32 }
{
    match instr {
        Instr::Lui { rd, imm } => write_with_upper(line, b"lui", rd, imm),
        Instr::Auipc { rd, imm } => write_with_upper(line, b"auipc", rd, imm),
        Instr::Jal { rd, imm } => write_jump(line, b"jal", pc, rd, imm),
        Instr::Jalr { rd, rs1, imm } => write_with_place(line, b"jalr", rd, rs1, imm),
        Instr::Beq { rs1, rs2, imm } => write_branch(line, b"beq", pc, rs1, rs2, imm),
        Instr::Bne { rs1, rs2, imm } => write_branch(line, b"bne", pc, rs1, rs2, imm),
        Instr::Blt { rs1, rs2, imm } => write_branch(line, b"blt", pc, rs1, rs2, imm),
        Instr::Bge { rs1, rs2, imm } => write_branch(line, b"bge", pc, rs1, rs2, imm),
        Instr::Bltu { rs1, rs2, imm } => write_branch(line, b"bltu", pc, rs1, rs2, imm),
        Instr::Bgeu { rs1, rs2, imm } => write_branch(line, b"bgeu", pc, rs1, rs2, imm),
        Instr::Lb { rd, rs1, imm } => write_with_place(line, b"lb", rd, rs1, imm),
        Instr::Lh { rd, rs1, imm } => write_with_place(line, b"lh", rd, rs1, imm),
        Instr::Lw { rd, rs1, imm } => write_with_place(line, b"lw", rd, rs1, imm),
        Instr::Lbu { rd, rs1, imm } => write_with_place(line, b"lbu", rd, rs1, imm),
        Instr::Lhu { rd, rs1, imm } => write_with_place(line, b"lhu", rd, rs1, imm),
        Instr::Sb { rs1, rs2, imm } => write_with_place(line, b"sb", rs2, rs1, imm),
        Instr::Sh { rs1, rs2, imm } => write_with_place(line, b"sh", rs2, rs1, imm),
        Instr::Sw { rs1, rs2, imm } => write_with_place(line, b"sw", rs2, rs1, imm),
        Instr::Addi { rd, rs1, imm } => write_with_immediate(line, b"addi", rd, rs1, imm),
        Instr::Slti { rd, rs1, imm } => write_with_immediate(line, b"slti", rd, rs1, imm),
        Instr::Sltiu { rd, rs1, imm } => write_with_immediate(line, b"sltiu", rd, rs1, imm),
        Instr::Xori { rd, rs1, imm } => write_with_immediate(line, b"xori", rd, rs1, imm),
        Instr::Ori { rd, rs1, imm } => write_with_immediate(line, b"ori", rd, rs1, imm),
        Instr::Andi { rd, rs1, imm } => write_with_immediate(line, b"andi", rd, rs1, imm),
        Instr::Slli { rd, rs1, imm } => write_with_amount(line, b"slli", rd, rs1, imm),
        Instr::Srli { rd, rs1, imm } => write_with_amount(line, b"srli", rd, rs1, imm),
        Instr::Srai { rd, rs1, imm } => write_with_amount(line, b"srai", rd, rs1, imm),
        Instr::Add { rd, rs1, rs2 } => write_with_registers(line, b"add", rd, rs1, rs2),
        Instr::Sub { rd, rs1, rs2 } => write_with_registers(line, b"sub", rd, rs1, rs2),
        Instr::Sll { rd, rs1, rs2 } => write_with_registers(line, b"sll", rd, rs1, rs2),
        Instr::Slt { rd, rs1, rs2 } => write_with_registers(line, b"slt", rd, rs1, rs2),
        Instr::Sltu { rd, rs1, rs2 } => write_with_registers(line, b"sltu", rd, rs1, rs2),
        Instr::Xor { rd, rs1, rs2 } => write_with_registers(line, b"xor", rd, rs1, rs2),
        Instr::Srl { rd, rs1, rs2 } => write_with_registers(line, b"srl", rd, rs1, rs2),
        Instr::Sra { rd, rs1, rs2 } => write_with_registers(line, b"sra", rd, rs1, rs2),
        Instr::Or { rd, rs1, rs2 } => write_with_registers(line, b"or", rd, rs1, rs2),
        Instr::And { rd, rs1, rs2 } => write_with_registers(line, b"and", rd, rs1, rs2),
        Instr::Mul { rd, rs1, rs2 } => write_with_registers(line, b"mul", rd, rs1, rs2),
        Instr::Mulh { rd, rs1, rs2 } => write_with_registers(line, b"mulh", rd, rs1, rs2),
        Instr::Mulhsu { rd, rs1, rs2 } => write_with_registers(line, b"mulhsu", rd, rs1, rs2),
        Instr::Mulhu { rd, rs1, rs2 } => write_with_registers(line, b"mulhu", rd, rs1, rs2),
        Instr::Div { rd, rs1, rs2 } => write_with_registers(line, b"div", rd, rs1, rs2),
        Instr::Divu { rd, rs1, rs2 } => write_with_registers(line, b"divu", rd, rs1, rs2),
        Instr::Rem { rd, rs1, rs2 } => write_with_registers(line, b"rem", rd, rs1, rs2),
        Instr::Remu { rd, rs1, rs2 } => write_with_registers(line, b"remu", rd, rs1, rs2),
        Instr::Fence { word } => write_fence(line, word),
        Instr::Ecall => write_text(line, b"ecall"),
        Instr::Ebreak => write_text(line, b"ebreak"),
    }
}

/// The statement of a FENCE.
fn write_fence(line: &mut Line, word: FenceWord)
    requires { array_vec_len line.old + 16 ≤ 512 }
    ensures text { line.new.items ≡ line.old.items ++ fence_text word }
    ensures short { array_vec_len line.new ≤ array_vec_len line.old + 16 }
{
    if word == FenceWord::FULL {
        write_text(line, b"fence");
    } else {
        write_plain_word(line, word.word());
    }
}
