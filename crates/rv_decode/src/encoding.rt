//! From instructions to words: each format puts its fields at their places.

ghost use Rattle.std.specs.Prelude.{◌≡◌, ℕ, ◌+◌, ◌*◌, ◌^◌, ◌<◌, ◌↔◌, Some};
ghost use Rattle.rv_decode.specs.Decoding.{instr_of_word};
ghost use Rattle.rv_decode.specs.Formats.{IsRegisterWord, IsShiftWord, IsImmediateWord, IsStoreWord, IsBranchWord, IsUpperWord, IsJumpWord};
ghost use Rattle.rv_decode.specs.Table.{Table};

use crate::bits::field;
use crate::fields::{BranchOffset, Immediate, JumpOffset, Register, ShiftAmount, UpperImmediate};
use crate::instructions::Instr;

/// The word of an instruction: the one that is decoded to it.
pub fn encode(instr: &Instr) -> u32
    ensures table { (word : ℕ) → (result ≡ word) ↔ Table word instr.now }
    ensures decoded { (w : ℕ) → w < 2 ^ 32 → (result ≡ w) ↔ (instr_of_word w ≡ Some instr.now) }
{
    table_word(instr)
}

// The word of the instruction's line in the table.
fn table_word(instr: &Instr) -> u32
    ensures { (word : ℕ) → (result ≡ word) ↔ Table word instr.now }
{
    match *instr {
        Instr::Lui { rd, imm } => upper_word(0x37, rd, imm),
        Instr::Auipc { rd, imm } => upper_word(0x17, rd, imm),
        Instr::Jal { rd, imm } => jump_word(0x6F, rd, imm),
        Instr::Jalr { rd, rs1, imm } => immediate_word(0x67, 0, rd, rs1, imm),
        Instr::Beq { rs1, rs2, imm } => branch_word(0x63, 0, rs1, rs2, imm),
        Instr::Bne { rs1, rs2, imm } => branch_word(0x63, 1, rs1, rs2, imm),
        Instr::Blt { rs1, rs2, imm } => branch_word(0x63, 4, rs1, rs2, imm),
        Instr::Bge { rs1, rs2, imm } => branch_word(0x63, 5, rs1, rs2, imm),
        Instr::Bltu { rs1, rs2, imm } => branch_word(0x63, 6, rs1, rs2, imm),
        Instr::Bgeu { rs1, rs2, imm } => branch_word(0x63, 7, rs1, rs2, imm),
        Instr::Lb { rd, rs1, imm } => immediate_word(0x03, 0, rd, rs1, imm),
        Instr::Lh { rd, rs1, imm } => immediate_word(0x03, 1, rd, rs1, imm),
        Instr::Lw { rd, rs1, imm } => immediate_word(0x03, 2, rd, rs1, imm),
        Instr::Lbu { rd, rs1, imm } => immediate_word(0x03, 4, rd, rs1, imm),
        Instr::Lhu { rd, rs1, imm } => immediate_word(0x03, 5, rd, rs1, imm),
        Instr::Sb { rs1, rs2, imm } => store_word(0x23, 0, rs1, rs2, imm),
        Instr::Sh { rs1, rs2, imm } => store_word(0x23, 1, rs1, rs2, imm),
        Instr::Sw { rs1, rs2, imm } => store_word(0x23, 2, rs1, rs2, imm),
        Instr::Addi { rd, rs1, imm } => immediate_word(0x13, 0, rd, rs1, imm),
        Instr::Slti { rd, rs1, imm } => immediate_word(0x13, 2, rd, rs1, imm),
        Instr::Sltiu { rd, rs1, imm } => immediate_word(0x13, 3, rd, rs1, imm),
        Instr::Xori { rd, rs1, imm } => immediate_word(0x13, 4, rd, rs1, imm),
        Instr::Ori { rd, rs1, imm } => immediate_word(0x13, 6, rd, rs1, imm),
        Instr::Andi { rd, rs1, imm } => immediate_word(0x13, 7, rd, rs1, imm),
        Instr::Slli { rd, rs1, imm } => shift_word(0x13, 1, 0x00, rd, rs1, imm),
        Instr::Srli { rd, rs1, imm } => shift_word(0x13, 5, 0x00, rd, rs1, imm),
        Instr::Srai { rd, rs1, imm } => shift_word(0x13, 5, 0x20, rd, rs1, imm),
        Instr::Add { rd, rs1, rs2 } => register_word(0x33, 0, 0x00, rd, rs1, rs2),
        Instr::Sub { rd, rs1, rs2 } => register_word(0x33, 0, 0x20, rd, rs1, rs2),
        Instr::Sll { rd, rs1, rs2 } => register_word(0x33, 1, 0x00, rd, rs1, rs2),
        Instr::Slt { rd, rs1, rs2 } => register_word(0x33, 2, 0x00, rd, rs1, rs2),
        Instr::Sltu { rd, rs1, rs2 } => register_word(0x33, 3, 0x00, rd, rs1, rs2),
        Instr::Xor { rd, rs1, rs2 } => register_word(0x33, 4, 0x00, rd, rs1, rs2),
        Instr::Srl { rd, rs1, rs2 } => register_word(0x33, 5, 0x00, rd, rs1, rs2),
        Instr::Sra { rd, rs1, rs2 } => register_word(0x33, 5, 0x20, rd, rs1, rs2),
        Instr::Or { rd, rs1, rs2 } => register_word(0x33, 6, 0x00, rd, rs1, rs2),
        Instr::And { rd, rs1, rs2 } => register_word(0x33, 7, 0x00, rd, rs1, rs2),
        Instr::Mul { rd, rs1, rs2 } => register_word(0x33, 0, 0x01, rd, rs1, rs2),
        Instr::Mulh { rd, rs1, rs2 } => register_word(0x33, 1, 0x01, rd, rs1, rs2),
        Instr::Mulhsu { rd, rs1, rs2 } => register_word(0x33, 2, 0x01, rd, rs1, rs2),
        Instr::Mulhu { rd, rs1, rs2 } => register_word(0x33, 3, 0x01, rd, rs1, rs2),
        Instr::Div { rd, rs1, rs2 } => register_word(0x33, 4, 0x01, rd, rs1, rs2),
        Instr::Divu { rd, rs1, rs2 } => register_word(0x33, 5, 0x01, rd, rs1, rs2),
        Instr::Rem { rd, rs1, rs2 } => register_word(0x33, 6, 0x01, rd, rs1, rs2),
        Instr::Remu { rd, rs1, rs2 } => register_word(0x33, 7, 0x01, rd, rs1, rs2),
        Instr::Fence { word } => word.word(),
        Instr::Ecall => 0x0000_0073,
        Instr::Ebreak => 0x0010_0073,
    }
}

// `below` with `part` set above it, at bit `place`.
fn placed(below: u32, part: u32, place: u32) -> u32
    requires place_in_word { place < 32 }
    requires apart { below < 2 ^ place }
    requires fits { part * 2 ^ place < 2 ^ 32 }
    ensures { result ≡ below + part * 2 ^ place }
{
    below | (part << place)
}

fn register_word(opcode: u32, f3: u32, f7: u32, rd: Register, rs1: Register, rs2: Register) -> u32
    requires opcode_fits { opcode < 2 ^ 7 }
    requires f3_fits { f3 < 2 ^ 3 }
    requires f7_fits { f7 < 2 ^ 7 }
    ensures { (word : ℕ) → (result ≡ word) ↔ IsRegisterWord word opcode f3 f7 rd rs1 rs2 }
{
    let word = placed(opcode, u32::from(rd.number()), 7);
    let word = placed(word, f3, 12);
    let word = placed(word, u32::from(rs1.number()), 15);
    let word = placed(word, u32::from(rs2.number()), 20);
    placed(word, f7, 25)
}

fn shift_word(
    opcode: u32,
    f3: u32,
    f7: u32,
    rd: Register,
    rs1: Register,
    amount: ShiftAmount,
) -> u32
    requires opcode_fits { opcode < 2 ^ 7 }
    requires f3_fits { f3 < 2 ^ 3 }
    requires f7_fits { f7 < 2 ^ 7 }
    ensures { (word : ℕ) → (result ≡ word) ↔ IsShiftWord word opcode f3 f7 rd rs1 amount }
{
    let word = placed(opcode, u32::from(rd.number()), 7);
    let word = placed(word, f3, 12);
    let word = placed(word, u32::from(rs1.number()), 15);
    let word = placed(word, amount.count(), 20);
    placed(word, f7, 25)
}

fn immediate_word(opcode: u32, f3: u32, rd: Register, rs1: Register, imm: Immediate) -> u32
    requires opcode_fits { opcode < 2 ^ 7 }
    requires f3_fits { f3 < 2 ^ 3 }
    ensures { (word : ℕ) → (result ≡ word) ↔ IsImmediateWord word opcode f3 rd rs1 imm }
{
    let word = placed(opcode, u32::from(rd.number()), 7);
    let word = placed(word, f3, 12);
    let word = placed(word, u32::from(rs1.number()), 15);
    placed(word, field(imm.word(), 0, 12), 20)
}

fn store_word(opcode: u32, f3: u32, rs1: Register, rs2: Register, imm: Immediate) -> u32
    requires opcode_fits { opcode < 2 ^ 7 }
    requires f3_fits { f3 < 2 ^ 3 }
    ensures { (word : ℕ) → (result ≡ word) ↔ IsStoreWord word opcode f3 rs1 rs2 imm }
{
    let word = placed(opcode, field(imm.word(), 0, 5), 7);
    let word = placed(word, f3, 12);
    let word = placed(word, u32::from(rs1.number()), 15);
    let word = placed(word, u32::from(rs2.number()), 20);
    placed(word, field(imm.word(), 5, 7), 25)
}

fn branch_word(opcode: u32, f3: u32, rs1: Register, rs2: Register, imm: BranchOffset) -> u32
    requires opcode_fits { opcode < 2 ^ 7 }
    requires f3_fits { f3 < 2 ^ 3 }
    ensures { (word : ℕ) → (result ≡ word) ↔ IsBranchWord word opcode f3 rs1 rs2 imm }
{
    let word = placed(opcode, field(imm.word(), 11, 1), 7);
    let word = placed(word, field(imm.word(), 1, 4), 8);
    let word = placed(word, f3, 12);
    let word = placed(word, u32::from(rs1.number()), 15);
    let word = placed(word, u32::from(rs2.number()), 20);
    let word = placed(word, field(imm.word(), 5, 6), 25);
    placed(word, field(imm.word(), 12, 1), 31)
}

fn upper_word(opcode: u32, rd: Register, imm: UpperImmediate) -> u32
    requires { opcode < 2 ^ 7 }
    ensures { (word : ℕ) → (result ≡ word) ↔ IsUpperWord word opcode rd imm }
{
    let word = placed(opcode, u32::from(rd.number()), 7);
    placed(word, field(imm.word(), 12, 20), 12)
}

fn jump_word(opcode: u32, rd: Register, imm: JumpOffset) -> u32
    requires { opcode < 2 ^ 7 }
    ensures { (word : ℕ) → (result ≡ word) ↔ IsJumpWord word opcode rd imm }
{
    let word = placed(opcode, u32::from(rd.number()), 7);
    let word = placed(word, field(imm.word(), 12, 8), 12);
    let word = placed(word, field(imm.word(), 11, 1), 20);
    let word = placed(word, field(imm.word(), 1, 10), 21);
    placed(word, field(imm.word(), 20, 1), 31)
}
