//! From words to instructions.

ghost use Rattle.std.specs.Prelude.{◌≡◌, ℕ, ◌↔◌, ◌%◌, Some};
ghost use Rattle.rv_decode.specs.Decoding.{instr_of_word, jump_to_register_of, branch_of, load_of, store_of, shift_up_of, shift_down_of, with_immediate_of, product_or_quotient_of, with_registers_of, system_of};
ghost use Rattle.rv_decode.specs.Fields.{rd_of, rs1_of, rs2_of, f7_of, immediate_of, store_offset_of, branch_offset_of, upper_immediate_of, jump_offset_of};
ghost use Rattle.rv_decode.specs.Table.{Table};
ghost use Rattle.rv_decode.specs.declared.instructions.Instr.{Instr};

use crate::bits::{f3, field, opcode};
use crate::fields::{
    BranchOffset, FenceWord, Immediate, JumpOffset, Register, ShiftAmount, UpperImmediate,
};
use crate::instructions::Instr;

// Fields, and the cases of one opcode, have hints alone: were they always inlined, a turn with all of them would be too large for
// the compiler to inline.

#[inline]
fn rd(word: u32) -> Register
    ensures { result ≡ rd_of word }
{
    Register::of_bits(field(word, 7, 5))
}

#[inline]
fn rs1(word: u32) -> Register
    ensures { result ≡ rs1_of word }
{
    Register::of_bits(field(word, 15, 5))
}

#[inline]
fn rs2(word: u32) -> Register
    ensures { result ≡ rs2_of word }
{
    Register::of_bits(field(word, 20, 5))
}

#[inline]
fn f7(word: u32) -> u32
    ensures { result ≡ f7_of word }
{
    field(word, 25, 7)
}

#[inline]
fn immediate(word: u32) -> Immediate
    ensures { result ≡ immediate_of word }
{
    Immediate::of_bits(field(word, 20, 12))
}

#[inline]
fn store_offset(word: u32) -> Immediate
    ensures { result ≡ store_offset_of word }
{
    Immediate::of_bits(field(word, 7, 5) | (field(word, 25, 7) << 5))
}

#[inline]
fn branch_offset(word: u32) -> BranchOffset
    ensures { result ≡ branch_offset_of word }
{
    BranchOffset::of_bits(
        (field(word, 8, 4) << 1)
            | (field(word, 25, 6) << 5)
            | (field(word, 7, 1) << 11)
            | (field(word, 31, 1) << 12),
    )
}

#[inline]
fn upper_immediate(word: u32) -> UpperImmediate
    ensures { result ≡ upper_immediate_of word }
{
    UpperImmediate::of_bits(field(word, 12, 20))
}

#[inline]
fn jump_offset(word: u32) -> JumpOffset
    ensures { result ≡ jump_offset_of word }
{
    JumpOffset::of_bits(
        (field(word, 21, 10) << 1)
            | (field(word, 20, 1) << 11)
            | (field(word, 12, 8) << 12)
            | (field(word, 31, 1) << 20),
    )
}

#[inline]
fn decode_jump_to_register(word: u32) -> Option<Instr>
    ensures { result ≡ jump_to_register_of word }
{
    match f3(word) {
        0 => Some(Instr::Jalr {
            rd: rd(word),
            rs1: rs1(word),
            imm: immediate(word),
        }),
        _ => None,
    }
}

#[inline]
fn decode_branch(word: u32) -> Option<Instr>
    ensures { result ≡ branch_of word }
{
    let rs1 = rs1(word);
    let rs2 = rs2(word);
    let imm = branch_offset(word);
    match f3(word) {
        0 => Some(Instr::Beq { rs1, rs2, imm }),
        1 => Some(Instr::Bne { rs1, rs2, imm }),
        4 => Some(Instr::Blt { rs1, rs2, imm }),
        5 => Some(Instr::Bge { rs1, rs2, imm }),
        6 => Some(Instr::Bltu { rs1, rs2, imm }),
        7 => Some(Instr::Bgeu { rs1, rs2, imm }),
        _ => None,
    }
}

#[inline]
fn decode_load(word: u32) -> Option<Instr>
    ensures { result ≡ load_of word }
{
    let rd = rd(word);
    let rs1 = rs1(word);
    let imm = immediate(word);
    match f3(word) {
        0 => Some(Instr::Lb { rd, rs1, imm }),
        1 => Some(Instr::Lh { rd, rs1, imm }),
        2 => Some(Instr::Lw { rd, rs1, imm }),
        4 => Some(Instr::Lbu { rd, rs1, imm }),
        5 => Some(Instr::Lhu { rd, rs1, imm }),
        _ => None,
    }
}

#[inline]
fn decode_store(word: u32) -> Option<Instr>
    ensures { result ≡ store_of word }
{
    let rs1 = rs1(word);
    let rs2 = rs2(word);
    let imm = store_offset(word);
    match f3(word) {
        0 => Some(Instr::Sb { rs1, rs2, imm }),
        1 => Some(Instr::Sh { rs1, rs2, imm }),
        2 => Some(Instr::Sw { rs1, rs2, imm }),
        _ => None,
    }
}

#[inline]
fn decode_shift_up(word: u32) -> Option<Instr>
    ensures { result ≡ shift_up_of word }
{
    let rd = rd(word);
    let rs1 = rs1(word);
    let imm = ShiftAmount::of_bits(field(word, 20, 5));
    match f7(word) {
        0x00 => Some(Instr::Slli { rd, rs1, imm }),
        _ => None,
    }
}

#[inline]
fn decode_shift_down(word: u32) -> Option<Instr>
    ensures { result ≡ shift_down_of word }
{
    let rd = rd(word);
    let rs1 = rs1(word);
    let imm = ShiftAmount::of_bits(field(word, 20, 5));
    match f7(word) {
        0x00 => Some(Instr::Srli { rd, rs1, imm }),
        0x20 => Some(Instr::Srai { rd, rs1, imm }),
        _ => None,
    }
}

#[inline]
fn decode_with_immediate(word: u32) -> Option<Instr>
    ensures { result ≡ with_immediate_of word }
{
    let rd = rd(word);
    let rs1 = rs1(word);
    let imm = immediate(word);
    match f3(word) {
        0 => Some(Instr::Addi { rd, rs1, imm }),
        1 => decode_shift_up(word),
        2 => Some(Instr::Slti { rd, rs1, imm }),
        3 => Some(Instr::Sltiu { rd, rs1, imm }),
        4 => Some(Instr::Xori { rd, rs1, imm }),
        5 => decode_shift_down(word),
        6 => Some(Instr::Ori { rd, rs1, imm }),
        7 => Some(Instr::Andi { rd, rs1, imm }),
        _ => None,
    }
}

#[inline]
fn decode_product_or_quotient(word: u32) -> Option<Instr>
    ensures { result ≡ product_or_quotient_of word }
{
    let rd = rd(word);
    let rs1 = rs1(word);
    let rs2 = rs2(word);
    match f3(word) {
        0 => Some(Instr::Mul { rd, rs1, rs2 }),
        1 => Some(Instr::Mulh { rd, rs1, rs2 }),
        2 => Some(Instr::Mulhsu { rd, rs1, rs2 }),
        3 => Some(Instr::Mulhu { rd, rs1, rs2 }),
        4 => Some(Instr::Div { rd, rs1, rs2 }),
        5 => Some(Instr::Divu { rd, rs1, rs2 }),
        6 => Some(Instr::Rem { rd, rs1, rs2 }),
        7 => Some(Instr::Remu { rd, rs1, rs2 }),
        _ => None,
    }
}

#[inline]
fn decode_with_registers(word: u32) -> Option<Instr>
    ensures { result ≡ with_registers_of word }
{
    let rd = rd(word);
    let rs1 = rs1(word);
    let rs2 = rs2(word);
    match (f7(word), f3(word)) {
        (0x00, 0) => Some(Instr::Add { rd, rs1, rs2 }),
        (0x00, 1) => Some(Instr::Sll { rd, rs1, rs2 }),
        (0x00, 2) => Some(Instr::Slt { rd, rs1, rs2 }),
        (0x00, 3) => Some(Instr::Sltu { rd, rs1, rs2 }),
        (0x00, 4) => Some(Instr::Xor { rd, rs1, rs2 }),
        (0x00, 5) => Some(Instr::Srl { rd, rs1, rs2 }),
        (0x00, 6) => Some(Instr::Or { rd, rs1, rs2 }),
        (0x00, 7) => Some(Instr::And { rd, rs1, rs2 }),
        (0x01, _) => decode_product_or_quotient(word),
        (0x20, 0) => Some(Instr::Sub { rd, rs1, rs2 }),
        (0x20, 5) => Some(Instr::Sra { rd, rs1, rs2 }),
        _ => None,
    }
}

#[inline]
fn decode_system(word: u32) -> Option<Instr>
    ensures { result ≡ system_of word }
{
    match word {
        0x0000_0073 => Some(Instr::Ecall),
        0x0010_0073 => Some(Instr::Ebreak),
        _ => None,
    }
}

/// The instruction of a word; `None` for a word outside the table of RV32IM.
///
/// A FENCE is any word of its opcode with f3 0, reserved forms too, and keeps its other bits: this is
/// the project's own profile.
#[inline(always)]
pub fn decode(word: u32) -> Option<Instr>
    ensures value { result ≡ instr_of_word word }
    ensures exact { (instr : Instr) → (result ≡ Some instr) ↔ Table word instr }
{
    decode_fields(word)
}

// By the opcode, and then by f3 and f7 where the opcode leaves a choice. A FENCE is matched, and not handed through `map`, which
// would copy it as one number of 64 bits: the compiler would know no case apart from the others then, on each turn.
#[tactic(auto, unfolding(crate::specs::Decoding::instr_of_word))]
#[inline(always)]
fn decode_fields(word: u32) -> Option<Instr>
    ensures { result ≡ instr_of_word word }
{
    match opcode(word) {
        0x37 => Some(Instr::Lui {
            rd: rd(word),
            imm: upper_immediate(word),
        }),
        0x17 => Some(Instr::Auipc {
            rd: rd(word),
            imm: upper_immediate(word),
        }),
        0x6F => Some(Instr::Jal {
            rd: rd(word),
            imm: jump_offset(word),
        }),
        0x67 => decode_jump_to_register(word),
        0x63 => decode_branch(word),
        0x03 => decode_load(word),
        0x23 => decode_store(word),
        0x13 => decode_with_immediate(word),
        0x33 => decode_with_registers(word),
        0x0F => match FenceWord::new(word) {
            Some(word) => Some(Instr::Fence { word }),
            None => None,
        },
        0x73 => decode_system(word),
        _ => None,
    }
}
