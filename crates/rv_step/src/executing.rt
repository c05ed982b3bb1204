//! The effect of each instruction.

ghost use Rattle.std.specs.Prelude.{◌≡◌, ◌%◌};
ghost use Rattle.rv_step.specs.Checks.{GoesOnToWord};
ghost use Rattle.rv_step.specs.Effects.{effect_of};

use crate::actions::{Action, Use};
use crate::effects::Effect;
use pump_words::{lt_signed, sra};
use rv_decode::Instr;
use rv_products::{
    div, div_unsigned, mul, mul_high, mul_high_mixed, mul_high_unsigned, rem, rem_unsigned,
};

/// The effect of an instruction at `pc`, where `a` and `b` are the values of rs1 and rs2 before rd is
/// written.
///
/// Sums wrap modulo 2^32. An ECALL only goes on here: what its service does is the machine's.
pub fn exec(instr: &Instr, pc: u32, a: u32, b: u32) -> Effect
    ensures value { result ≡ effect_of instr.now pc a b }
    ensures onward { pc % 4 ≡ 0 → GoesOnToWord result }
{
    act(instr, pc, a, b).effect()
}

/// The same effect in the form that a turn carries.
#[inline(always)]
pub fn act(instr: &Instr, pc: u32, a: u32, b: u32) -> Action
    ensures value { result ≡ effect_of instr.now pc a b }
    ensures onward { pc % 4 ≡ 0 → GoesOnToWord result }
{
    let mut action = Action::passing(pc);
    match *instr {
        Instr::Lui { imm, .. } => action.compute(imm.word()),
        Instr::Auipc { imm, .. } => action.compute(pc.wrapping_add(imm.word())),
        Instr::Jal { imm, .. } => action.jump_to(pc, pc.wrapping_add(imm.word())),
        Instr::Jalr { imm, .. } => action.jump_to(pc, a.wrapping_add(imm.word()) & !1),
        Instr::Beq { imm, .. } => action.branch(pc.wrapping_add(imm.word()), a == b),
        Instr::Bne { imm, .. } => action.branch(pc.wrapping_add(imm.word()), a != b),
        Instr::Blt { imm, .. } => action.branch(pc.wrapping_add(imm.word()), lt_signed(a, b)),
        Instr::Bge { imm, .. } => action.branch(pc.wrapping_add(imm.word()), !lt_signed(a, b)),
        Instr::Bltu { imm, .. } => action.branch(pc.wrapping_add(imm.word()), a < b),
        Instr::Bgeu { imm, .. } => action.branch(pc.wrapping_add(imm.word()), a >= b),
        Instr::Lb { imm, .. } => action.touch(Use::LoadByte, a.wrapping_add(imm.word()), 0),
        Instr::Lh { imm, .. } => action.touch(Use::LoadHalf, a.wrapping_add(imm.word()), 0),
        Instr::Lw { imm, .. } => action.touch(Use::LoadWord, a.wrapping_add(imm.word()), 0),
        Instr::Lbu { imm, .. } => action.touch(
            Use::LoadByteUnsigned,
            a.wrapping_add(imm.word()),
            0,
        ),
        Instr::Lhu { imm, .. } => action.touch(
            Use::LoadHalfUnsigned,
            a.wrapping_add(imm.word()),
            0,
        ),
        Instr::Sb { imm, .. } => action.touch(Use::StoreByte, a.wrapping_add(imm.word()), b),
        Instr::Sh { imm, .. } => action.touch(Use::StoreHalf, a.wrapping_add(imm.word()), b),
        Instr::Sw { imm, .. } => action.touch(Use::StoreWord, a.wrapping_add(imm.word()), b),
        Instr::Addi { imm, .. } => action.compute(a.wrapping_add(imm.word())),
        Instr::Slti { imm, .. } => action.compute(u32::from(lt_signed(a, imm.word()))),
        Instr::Sltiu { imm, .. } => action.compute(u32::from(a < imm.word())),
        Instr::Xori { imm, .. } => action.compute(a ^ imm.word()),
        Instr::Ori { imm, .. } => action.compute(a | imm.word()),
        Instr::Andi { imm, .. } => action.compute(a & imm.word()),
        Instr::Slli { imm, .. } => action.compute(a << imm.count()),
        Instr::Srli { imm, .. } => action.compute(a >> imm.count()),
        Instr::Srai { imm, .. } => action.compute(sra(a, imm.count())),
        Instr::Add { .. } => action.compute(a.wrapping_add(b)),
        Instr::Sub { .. } => action.compute(a.wrapping_sub(b)),
        Instr::Sll { .. } => action.compute(a << (b % 32)),
        Instr::Slt { .. } => action.compute(u32::from(lt_signed(a, b))),
        Instr::Sltu { .. } => action.compute(u32::from(a < b)),
        Instr::Xor { .. } => action.compute(a ^ b),
        Instr::Srl { .. } => action.compute(a >> (b % 32)),
        Instr::Sra { .. } => action.compute(sra(a, b)),
        Instr::Or { .. } => action.compute(a | b),
        Instr::And { .. } => action.compute(a & b),
        Instr::Mul { .. } => action.compute(mul(a, b)),
        Instr::Mulh { .. } => action.compute(mul_high(a, b)),
        Instr::Mulhsu { .. } => action.compute(mul_high_mixed(a, b)),
        Instr::Mulhu { .. } => action.compute(mul_high_unsigned(a, b)),
        Instr::Div { .. } => action.compute(div(a, b)),
        Instr::Divu { .. } => action.compute(div_unsigned(a, b)),
        Instr::Rem { .. } => action.compute(rem(a, b)),
        Instr::Remu { .. } => action.compute(rem_unsigned(a, b)),
        Instr::Fence { .. } | Instr::Ecall | Instr::Ebreak => {}
    }
    action
}
