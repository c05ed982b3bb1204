//! What the first word of a statement asks for.

/// An operation on two registers, written `add rd, rs1, rs2`.
#[derive(Clone, Copy, Debug)]
pub enum RegisterOperation {
    Add,
    Sub,
    Sll,
    Slt,
    Sltu,
    Xor,
    Srl,
    Sra,
    Or,
    And,
    Mul,
    Mulh,
    Mulhsu,
    Mulhu,
    Div,
    Divu,
    Rem,
    Remu,
}

/// An operation on a register and a number, written `addi rd, rs1, n`.
#[derive(Clone, Copy, Debug)]
pub enum ImmediateOperation {
    Addi,
    Slti,
    Sltiu,
    Xori,
    Ori,
    Andi,
}

/// A shift of a register by a number, written `slli rd, rs1, n`.
#[derive(Clone, Copy, Debug)]
pub enum ShiftOperation {
    Slli,
    Srli,
    Srai,
}

/// An operation on the upper 20 bits, written `lui rd, n`.
#[derive(Clone, Copy, Debug)]
pub enum UpperOperation {
    Lui,
    Auipc,
}

/// A load, written `lw rd, n(rs1)`.
#[derive(Clone, Copy, Debug)]
pub enum LoadOperation {
    Lb,
    Lh,
    Lw,
    Lbu,
    Lhu,
}

/// A store, written `sw rs2, n(rs1)`.
#[derive(Clone, Copy, Debug)]
pub enum StoreOperation {
    Sb,
    Sh,
    Sw,
}

/// A branch, written `beq rs1, rs2, T`.
#[derive(Clone, Copy, Debug)]
pub enum BranchOperation {
    Beq,
    Bne,
    Blt,
    Bge,
    Bltu,
    Bgeu,
}

/// A directive, whose word begins with a dot.
#[derive(Clone, Copy)]
pub enum Directive {
    /// `.version N`, the version of the image's file.
    Version,
    /// `.harts N`, how many harts there are.
    Harts,
    /// `.ram N`, how many bytes of RAM there are.
    Ram,
    /// `.heap B, N`, where the heap region lies, and how many bytes it has.
    Heap,
    /// `.entry H, T`, where a hart starts.
    Entry,
    /// `.org N`, the place of what comes next.
    Origin,
    /// `.word T`, a word.
    Word,
    /// `.zero N`, so many words of 0.
    Zeros,
    /// `.text`, the words from here on are code.
    Text,
    /// `.data`, the words from here on are no code.
    Data,
    /// `.label ID`, the label of the next word.
    Label,
    /// `.edge S, D`, an allowed way between labels.
    Edge,
    /// `.comp O, I, W`, the compartment of the words from here on.
    Compartment,
}

/// What the first word of a statement asks for, and so which operands stand behind it. `rd`, `rs1`, `rs2` and `rs` are
/// registers, `n` is a number, and `T` a name or a number.
#[derive(Clone, Copy)]
pub enum Form {
    /// `add rd, rs1, rs2` and its like.
    Registers(RegisterOperation),
    /// `addi rd, rs1, n` and its like.
    Immediate(ImmediateOperation),
    /// `slli rd, rs1, n` and its like.
    Shift(ShiftOperation),
    /// `lui rd, n` and its like.
    Upper(UpperOperation),
    /// `lw rd, n(rs1)` and its like.
    Load(LoadOperation),
    /// `sw rs2, n(rs1)` and its like.
    Store(StoreOperation),
    /// `beq rs1, rs2, T` and its like.
    Branch(BranchOperation),
    /// `jal rd, T`.
    Jump,
    /// `jalr rd, n(rs1)`.
    JumpRegister,
    /// `fence`.
    Fence,
    /// `ecall`.
    Ecall,
    /// `ebreak`.
    Ebreak,
    /// `nop`, which is `addi x0, x0, 0`.
    Nothing,
    /// `mv rd, rs`, which is `addi rd, rs, 0`.
    Move,
    /// `ret`, which is `jalr x0, 0(x1)`.
    Return,
    /// `j T`, which is `jal x0, T`.
    JumpAlone,
    /// `li rd, n`, which writes a number into a register.
    LoadNumber,
    /// `la rd, T`, which writes an address into a register.
    LoadAddress,
    /// A directive.
    Directive(Directive),
}
