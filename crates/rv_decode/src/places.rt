//! Where an instruction has its operands and its result.

ghost use Rattle.std.specs.Prelude.{◌≡◌};
ghost use Rattle.rv_decode.specs.Groups.{places_of, reads_of, writes_of};

use crate::fields::Register;
use crate::groups::GET;
use crate::instructions::Instr;

/// The operands of an instruction whose tags a rule is given.
#[derive(Clone, Copy, PartialEq, Eq)]
pub struct Reads {
    /// The register of the first operand.
    pub t1: Option<Register>,
    /// The register of the second operand.
    pub t2: Option<Register>,
    /// Whether a memory word is an operand: the one that holds the access.
    pub word: bool,
}

impl Reads {
    fn new(t1: Option<Register>, t2: Option<Register>, word: bool) -> Reads
        ensures { result ≡ record { t1 = t1; t2 = t2; word = word } }
    {
        Reads { t1, t2, word }
    }
}

/// The place of an instruction's result.
#[derive(Clone, Copy, PartialEq, Eq)]
pub enum Slot {
    /// It has no result.
    Nothing,
    /// A register.
    Reg(Register),
    /// The memory word that holds the access.
    Word,
}

/// The registers of an instruction's operands and of its result, as a turn takes them: x0, which is 0 and plain and
/// drops what is written, stands for each that there is not.
#[derive(Clone, Copy)]
pub struct Places {
    /// The register of the first operand.
    pub first: Register,
    /// The register of the second operand.
    pub second: Register,
    /// The register of the result.
    pub result: Register,
}

impl Places {
    #[inline]
    fn new(first: Register, second: Register, rd: Register) -> Places
        ensures { result ≡ record { first = first; second = second; result = rd } }
    {
        Places {
            first,
            second,
            result: rd,
        }
    }

    /// Those of an ECALL that finds this number in a7.
    #[inline]
    fn of_service(service: u32) -> Places
        ensures { result ≡ places_of Instr.Ecall service }
    {
        let answer = if service == GET {
            Register::A0
        } else {
            Register::ZERO
        };
        Places::new(Register::A0, Register::A7, answer)
    }
}

impl Instr {
    /// Its operands. Those of ECALL are a0 and a7.
    pub fn reads(&self) -> Reads
        ensures { result ≡ reads_of self.now }
    {
        match *self {
            Instr::Lui { .. }
            | Instr::Auipc { .. }
            | Instr::Jal { .. }
            | Instr::Fence { .. }
            | Instr::Ebreak => Reads::new(None, None, false),
            Instr::Jalr { rs1, .. }
            | Instr::Addi { rs1, .. }
            | Instr::Slti { rs1, .. }
            | Instr::Sltiu { rs1, .. }
            | Instr::Xori { rs1, .. }
            | Instr::Ori { rs1, .. }
            | Instr::Andi { rs1, .. }
            | Instr::Slli { rs1, .. }
            | Instr::Srli { rs1, .. }
            | Instr::Srai { rs1, .. } => Reads::new(Some(rs1), None, false),
            Instr::Beq { rs1, rs2, .. }
            | Instr::Bne { rs1, rs2, .. }
            | Instr::Blt { rs1, rs2, .. }
            | Instr::Bge { rs1, rs2, .. }
            | Instr::Bltu { rs1, rs2, .. }
            | Instr::Bgeu { rs1, rs2, .. }
            | Instr::Add { rs1, rs2, .. }
            | Instr::Sub { rs1, rs2, .. }
            | Instr::Sll { rs1, rs2, .. }
            | Instr::Slt { rs1, rs2, .. }
            | Instr::Sltu { rs1, rs2, .. }
            | Instr::Xor { rs1, rs2, .. }
            | Instr::Srl { rs1, rs2, .. }
            | Instr::Sra { rs1, rs2, .. }
            | Instr::Or { rs1, rs2, .. }
            | Instr::And { rs1, rs2, .. }
            | Instr::Mul { rs1, rs2, .. }
            | Instr::Mulh { rs1, rs2, .. }
            | Instr::Mulhsu { rs1, rs2, .. }
            | Instr::Mulhu { rs1, rs2, .. }
            | Instr::Div { rs1, rs2, .. }
            | Instr::Divu { rs1, rs2, .. }
            | Instr::Rem { rs1, rs2, .. }
            | Instr::Remu { rs1, rs2, .. } => Reads::new(Some(rs1), Some(rs2), false),
            Instr::Lb { rs1, .. }
            | Instr::Lh { rs1, .. }
            | Instr::Lw { rs1, .. }
            | Instr::Lbu { rs1, .. }
            | Instr::Lhu { rs1, .. } => Reads::new(Some(rs1), None, true),
            Instr::Sb { rs1, rs2, .. } | Instr::Sh { rs1, rs2, .. } | Instr::Sw { rs1, rs2, .. } =>
                Reads::new(Some(rs1), Some(rs2), true),
            Instr::Ecall => Reads::new(Some(Register::A0), Some(Register::A7), false),
        }
    }

    /// The place of its result where register a7 holds `a7`, which decides for ECALL alone.
    pub fn writes(&self, a7: u32) -> Slot
        ensures { result ≡ writes_of self.now a7 }
    {
        match *self {
            Instr::Lui { rd, .. }
            | Instr::Auipc { rd, .. }
            | Instr::Jal { rd, .. }
            | Instr::Jalr { rd, .. }
            | Instr::Lb { rd, .. }
            | Instr::Lh { rd, .. }
            | Instr::Lw { rd, .. }
            | Instr::Lbu { rd, .. }
            | Instr::Lhu { rd, .. }
            | Instr::Addi { rd, .. }
            | Instr::Slti { rd, .. }
            | Instr::Sltiu { rd, .. }
            | Instr::Xori { rd, .. }
            | Instr::Ori { rd, .. }
            | Instr::Andi { rd, .. }
            | Instr::Slli { rd, .. }
            | Instr::Srli { rd, .. }
            | Instr::Srai { rd, .. }
            | Instr::Add { rd, .. }
            | Instr::Sub { rd, .. }
            | Instr::Sll { rd, .. }
            | Instr::Slt { rd, .. }
            | Instr::Sltu { rd, .. }
            | Instr::Xor { rd, .. }
            | Instr::Srl { rd, .. }
            | Instr::Sra { rd, .. }
            | Instr::Or { rd, .. }
            | Instr::And { rd, .. }
            | Instr::Mul { rd, .. }
            | Instr::Mulh { rd, .. }
            | Instr::Mulhsu { rd, .. }
            | Instr::Mulhu { rd, .. }
            | Instr::Div { rd, .. }
            | Instr::Divu { rd, .. }
            | Instr::Rem { rd, .. }
            | Instr::Remu { rd, .. } => Slot::Reg(rd),
            Instr::Sb { .. } | Instr::Sh { .. } | Instr::Sw { .. } => Slot::Word,
            Instr::Beq { .. }
            | Instr::Bne { .. }
            | Instr::Blt { .. }
            | Instr::Bge { .. }
            | Instr::Bltu { .. }
            | Instr::Bgeu { .. }
            | Instr::Fence { .. }
            | Instr::Ebreak => Slot::Nothing,
            Instr::Ecall => answer_slot(a7),
        }
    }

    /// The registers of its operands and of its result where register a7 holds `a7`: those that `reads` and `writes`
    /// give, and x0 for each that there is not.
    #[inline]
    pub fn places(&self, a7: u32) -> Places
        ensures { result ≡ places_of self.now a7 }
    {
        match *self {
            Instr::Lui { rd, .. } | Instr::Auipc { rd, .. } | Instr::Jal { rd, .. } => {
                Places::new(Register::ZERO, Register::ZERO, rd)
            }
            Instr::Jalr { rd, rs1, .. }
            | Instr::Lb { rd, rs1, .. }
            | Instr::Lh { rd, rs1, .. }
            | Instr::Lw { rd, rs1, .. }
            | Instr::Lbu { rd, rs1, .. }
            | Instr::Lhu { rd, rs1, .. }
            | Instr::Addi { rd, rs1, .. }
            | Instr::Slti { rd, rs1, .. }
            | Instr::Sltiu { rd, rs1, .. }
            | Instr::Xori { rd, rs1, .. }
            | Instr::Ori { rd, rs1, .. }
            | Instr::Andi { rd, rs1, .. }
            | Instr::Slli { rd, rs1, .. }
            | Instr::Srli { rd, rs1, .. }
            | Instr::Srai { rd, rs1, .. } => Places::new(rs1, Register::ZERO, rd),
            Instr::Add { rd, rs1, rs2 }
            | Instr::Sub { rd, rs1, rs2 }
            | Instr::Sll { rd, rs1, rs2 }
            | Instr::Slt { rd, rs1, rs2 }
            | Instr::Sltu { rd, rs1, rs2 }
            | Instr::Xor { rd, rs1, rs2 }
            | Instr::Srl { rd, rs1, rs2 }
            | Instr::Sra { rd, rs1, rs2 }
            | Instr::Or { rd, rs1, rs2 }
            | Instr::And { rd, rs1, rs2 }
            | Instr::Mul { rd, rs1, rs2 }
            | Instr::Mulh { rd, rs1, rs2 }
            | Instr::Mulhsu { rd, rs1, rs2 }
            | Instr::Mulhu { rd, rs1, rs2 }
            | Instr::Div { rd, rs1, rs2 }
            | Instr::Divu { rd, rs1, rs2 }
            | Instr::Rem { rd, rs1, rs2 }
            | Instr::Remu { rd, rs1, rs2 } => Places::new(rs1, rs2, rd),
            Instr::Beq { rs1, rs2, .. }
            | Instr::Bne { rs1, rs2, .. }
            | Instr::Blt { rs1, rs2, .. }
            | Instr::Bge { rs1, rs2, .. }
            | Instr::Bltu { rs1, rs2, .. }
            | Instr::Bgeu { rs1, rs2, .. }
            | Instr::Sb { rs1, rs2, .. }
            | Instr::Sh { rs1, rs2, .. }
            | Instr::Sw { rs1, rs2, .. } => Places::new(rs1, rs2, Register::ZERO),
            Instr::Ecall => Places::of_service(a7),
            Instr::Fence { .. } | Instr::Ebreak => {
                Places::new(Register::ZERO, Register::ZERO, Register::ZERO)
            }
        }
    }
}

/// The place of the result of an ECALL that finds this number in a7: only the service that gets a byte has one.
fn answer_slot(service: u32) -> Slot
    ensures { result ≡ writes_of Instr.Ecall service }
{
    if service == GET {
        Slot::Reg(Register::A0)
    } else {
        Slot::Nothing
    }
}
