//! Operation groups: what a policy's rule is asked for.

ghost use Rattle.std.specs.Prelude.{◌≡◌};
ghost use Rattle.rv_decode.specs.Groups.{addi_group, group_of, service_group};

use crate::instructions::Instr;

/// The number of the service that exits.
const EXIT: u32 = 0;

/// The number of the service that puts a byte.
const PUT: u32 = 1;

/// The number of the service that gets a byte.
pub(crate) const GET: u32 = 2;

/// An operation group: instructions that the rules of a policy treat alike.
///
/// The groups are this project's profile.
#[derive(Clone, Copy, PartialEq, Eq)]
pub enum Group {
    /// LUI.
    Const,
    /// AUIPC.
    Here,
    /// JAL.
    Jal,
    /// JALR.
    Jalr,
    /// The six branches.
    Branch,
    /// LW.
    LoadWord,
    /// LB, LH, LBU and LHU.
    LoadPart,
    /// SW.
    StoreWord,
    /// SB and SH.
    StorePart,
    /// ADDI with immediate 0.
    Move,
    /// Any other ADDI.
    AddImm,
    /// The other instructions with a register and an immediate.
    AluImm,
    /// ADD.
    Add,
    /// SUB.
    Sub,
    /// The other instructions with two registers.
    Alu,
    /// FENCE.
    Fence,
    /// ECALL with 0 in a7.
    Exit,
    /// ECALL with 1 in a7.
    Put,
    /// ECALL with 2 in a7.
    Get,
    /// EBREAK.
    Break,
    /// ECALL with any other number in a7: a service of a policy.
    Call,
}

impl Instr {
    /// The group of the instruction where register a7 holds `a7`, which decides for ECALL alone.
    #[inline]
    pub fn group(&self, a7: u32) -> Group
        ensures { result ≡ group_of self.now a7 }
    {
        match self {
            Instr::Lui { .. } => Group::Const,
            Instr::Auipc { .. } => Group::Here,
            Instr::Jal { .. } => Group::Jal,
            Instr::Jalr { .. } => Group::Jalr,
            Instr::Beq { .. }
            | Instr::Bne { .. }
            | Instr::Blt { .. }
            | Instr::Bge { .. }
            | Instr::Bltu { .. }
            | Instr::Bgeu { .. } => Group::Branch,
            Instr::Lw { .. } => Group::LoadWord,
            Instr::Lb { .. } | Instr::Lh { .. } | Instr::Lbu { .. } | Instr::Lhu { .. } => {
                Group::LoadPart
            }
            Instr::Sw { .. } => Group::StoreWord,
            Instr::Sb { .. } | Instr::Sh { .. } => Group::StorePart,
            Instr::Addi { imm, .. } => addi_group(imm.word()),
            Instr::Slti { .. }
            | Instr::Sltiu { .. }
            | Instr::Xori { .. }
            | Instr::Ori { .. }
            | Instr::Andi { .. }
            | Instr::Slli { .. }
            | Instr::Srli { .. }
            | Instr::Srai { .. } => Group::AluImm,
            Instr::Add { .. } => Group::Add,
            Instr::Sub { .. } => Group::Sub,
            Instr::Sll { .. }
            | Instr::Slt { .. }
            | Instr::Sltu { .. }
            | Instr::Xor { .. }
            | Instr::Srl { .. }
            | Instr::Sra { .. }
            | Instr::Or { .. }
            | Instr::And { .. }
            | Instr::Mul { .. }
            | Instr::Mulh { .. }
            | Instr::Mulhsu { .. }
            | Instr::Mulhu { .. }
            | Instr::Div { .. }
            | Instr::Divu { .. }
            | Instr::Rem { .. }
            | Instr::Remu { .. } => Group::Alu,
            Instr::Fence { .. } => Group::Fence,
            Instr::Ecall => service_group(a7),
            Instr::Ebreak => Group::Break,
        }
    }
}

/// The group of an ADDI with this immediate.
#[inline(always)]
fn addi_group(immediate: u32) -> Group
    ensures { result ≡ addi_group immediate }
{
    if immediate == 0 {
        Group::Move
    } else {
        Group::AddImm
    }
}

/// The group of an ECALL that finds this number in a7.
#[inline(always)]
fn service_group(service: u32) -> Group
    ensures { result ≡ service_group service }
{
    match service {
        EXIT => Group::Exit,
        PUT => Group::Put,
        GET => Group::Get,
        _ => Group::Call,
    }
}
