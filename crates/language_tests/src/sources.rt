//! Sources, each with what is read of it, and lines that are wrong, each with its error.

use asm_read::{AsmEnd, Line, Name, Statement, Target, read_source};
use std::alloc::{AllocError, Global};
use std::process::Abort;
use std::test::Fail;

/// A source, and what its lines say, or its first error.
type Row = (&'static [u8], &'static str);

/// Forms of registers and of numbers.
const REGISTER_FORMS: &[Row] = &[
    (b"", ""),
    (b"\n \t \r\n# nop\n\n", ""),
    (b"add x1, x2, x3", "1 Add x1 x2 x3"),
    (b"sub x31, x30, x29", "1 Sub x31 x30 x29"),
    (b"sll x4, x5, x6", "1 Sll x4 x5 x6"),
    (b"slt x7, x8, x9", "1 Slt x7 x8 x9"),
    (b"sltu x10, x11, x12", "1 Sltu x10 x11 x12"),
    (b"xor x13, x14, x15", "1 Xor x13 x14 x15"),
    (b"srl x16, x17, x18", "1 Srl x16 x17 x18"),
    (b"sra x19, x20, x21", "1 Sra x19 x20 x21"),
    (b"or x22, x23, x24", "1 Or x22 x23 x24"),
    (b"and x25, x26, x27", "1 And x25 x26 x27"),
    (b"mul x1, x2, x3", "1 Mul x1 x2 x3"),
    (b"mulh x4, x5, x6", "1 Mulh x4 x5 x6"),
    (b"mulhsu x7, x8, x9", "1 Mulhsu x7 x8 x9"),
    (b"mulhu x10, x11, x12", "1 Mulhu x10 x11 x12"),
    (b"div x13, x14, x15", "1 Div x13 x14 x15"),
    (b"divu x16, x17, x18", "1 Divu x16 x17 x18"),
    (b"rem x19, x20, x21", "1 Rem x19 x20 x21"),
    (b"remu x22, x23, x24", "1 Remu x22 x23 x24"),
    (b"addi x28, x0, -2048", "1 Addi x28 x0 -2048"),
    (b"slti x1, x2, 2047", "1 Slti x1 x2 2047"),
    (b"sltiu x1, x2, 0x7ff", "1 Sltiu x1 x2 2047"),
    (b"xori x1, x2, -1", "1 Xori x1 x2 -1"),
    (b"ori x1, x2, 0xFF", "1 Ori x1 x2 255"),
    (b"andi x1, x2, 007", "1 Andi x1 x2 7"),
    (b"slli x1, x2, 31", "1 Slli x1 x2 31"),
    (b"srli x1, x2, 0", "1 Srli x1 x2 0"),
    (b"srai x1, x2, 32", "1 Srai x1 x2 32"),
    (b"lui x1, 0xfffff", "1 Lui x1 1048575"),
    (b"auipc x1, 0", "1 Auipc x1 0"),
    (b"lb x1, 4(x2)", "1 Lb x1 4(x2)"),
];

/// The other forms.
const OTHER_FORMS: &[Row] = &[
    (b"lh x1, -4(x2)", "1 Lh x1 -4(x2)"),
    (b"lw x1, 0x10(x2)", "1 Lw x1 16(x2)"),
    (b"lbu x1, 0(x2)", "1 Lbu x1 0(x2)"),
    (b"lhu x1, 2047(x2)", "1 Lhu x1 2047(x2)"),
    (b"sb x1, 1(x2)", "1 Sb x1 1(x2)"),
    (b"sh x1, 2(x2)", "1 Sh x1 2(x2)"),
    (b"sw x1, 4(x2)", "1 Sw x1 4(x2)"),
    (b"beq x1, x2, here", "1 Beq x1 x2 here"),
    (b"bne x1, x2, 8", "1 Bne x1 x2 8"),
    (b"blt x1, x2, _", "1 Blt x1 x2 _"),
    (b"bge x1, x2, add", "1 Bge x1 x2 add"),
    (b"bltu x1, x2, x3", "1 Bltu x1 x2 x3"),
    (b"bgeu x1, x2, -4", "1 Bgeu x1 x2 -4"),
    (b"jal x1, main", "1 jal x1 main"),
    (b"jalr x1, 4(x2)", "1 jalr x1 4(x2)"),
    (b"fence", "1 fence"),
    (b"ecall", "1 ecall"),
    (b"ebreak", "1 ebreak"),
    (b"nop", "1 Addi x0 x0 0"),
    (b"mv x1, x2", "1 Addi x1 x2 0"),
    (b"ret", "1 jalr x0 0(x1)"),
    (b"j 20", "1 jal x0 20"),
    (b"li x1, 4294967295", "1 li x1 4294967295"),
    (b"la x1, table", "1 la x1 table"),
];

/// Directives.
const DIRECTIVES: &[Row] = &[
    (b".version 2", "1 .version 2"),
    (b".harts 2", "1 .harts 2"),
    (b".ram 65536", "1 .ram 65536"),
    (b".heap 61440, 4096", "1 .heap 61440 4096"),
    (b".entry 1, main", "1 .entry 1 main"),
    (b".org 256", "1 .org 256"),
    (b".word 0xDEADbeef", "1 .word 3735928559"),
    (b".zero 16", "1 .zero 16"),
    (b".text", "1 .text"),
    (b".data", "1 .data"),
    (b".label 7", "1 .label 7"),
    (b".edge 1, 2", "1 .edge 1 2"),
    (b".comp 1, 2, 3", "1 .comp 1 2 3"),
];

/// Registers by what they are for.
const REGISTERS: &[Row] = &[
    (b"add zero, ra, sp", "1 Add x0 x1 x2"),
    (b"add gp, tp, t0", "1 Add x3 x4 x5"),
    (b"add t1, t2, s0", "1 Add x6 x7 x8"),
    (b"add fp, s1, a0", "1 Add x8 x9 x10"),
    (b"add a1, a2, a3", "1 Add x11 x12 x13"),
    (b"add a4, a5, a6", "1 Add x14 x15 x16"),
    (b"add a7, s2, s3", "1 Add x17 x18 x19"),
    (b"add s4, s5, s6", "1 Add x20 x21 x22"),
    (b"add s7, s8, s9", "1 Add x23 x24 x25"),
    (b"add s10, s11, t3", "1 Add x26 x27 x28"),
    (b"add t4, t5, t6", "1 Add x29 x30 x31"),
];

/// Blanks, comments and ends of lines; names.
const ENDS_AND_NAMES: &[Row] = &[
    (b" \tadd\t x1 ,x2,\tx3 \t", "1 Add x1 x2 x3"),
    (b"lw x1 , 4(x2) ", "1 Lw x1 4(x2)"),
    (b"nop# comment: it, (too) # .walk", "1 Addi x0 x0 0"),
    (b"\r\n\r\nnop\r\n", "3 Addi x0 x0 0"),
    (b"nop\nret", "1 Addi x0 x0 0; 2 jalr x0 0(x1)"),
    (b"# one\n# two\nnop\n\n.text\n", "3 Addi x0 x0 0; 5 .text"),
    (b"main:", "1 main:"),
    (b" main\t:\tnop", "1 main: Addi x0 x0 0"),
    (b"_9z_: ret # :", "1 _9z_: jalr x0 0(x1)"),
    (b"x1: nop", "1 x1: Addi x0 x0 0"),
    (b"add:add x1,x1,x1", "1 add: Add x1 x1 x1"),
    (b"a:\nb:\nj a", "1 a:; 2 b:; 3 jal x0 a"),
];

/// Numbers: leading zeros are free, and digits of hexadecimal numbers have either case. Ranges aren't asked here.
const NUMBERS: &[Row] = &[
    (b".word -2147483648", "1 .word -2147483648"),
    (b".word 4294967295", "1 .word 4294967295"),
    (b".word 0xffffFFFF", "1 .word 4294967295"),
    (b".word 0x0000000000000000001", "1 .word 1"),
    (b".word 00000000000000000000000012", "1 .word 12"),
    (b".word -00", "1 .word 0"),
    (b".word 0x0", "1 .word 0"),
    (b".word x", "1 .word x"),
    (b".word xA_1", "1 .word xA_1"),
    (b"addi x1, x1, 4294967295", "1 Addi x1 x1 4294967295"),
    (b"li x1, -2147483648", "1 li x1 -2147483648"),
    (b".harts 0", "1 .harts 0"),
    (b".zero -1", "1 .zero -1"),
    (b".version 0", "1 .version 0"),
    (b".comp 32, -1, -2147483648", "1 .comp 32 negative negative"),
    (b".comp -1, -0, 007", "1 .comp -1 0 7"),
    (
        b".comp 0, 4294967296, 0x100000000",
        "1 .comp 0 4294967296 4294967296",
    ),
    (
        b".comp 4294967295, 340282366920938463463374607431768211455, 0",
        "1 .comp 4294967295 340282366920938463463374607431768211455 0",
    ),
    (
        b".comp 0, 0, 0x00ffffffffFFFFFFFFffffffffFFFFFFFF",
        "1 .comp 0 0 340282366920938463463374607431768211455",
    ),
    (b".label -1", "1 .label -1"),
    (b".entry 9, -1", "1 .entry 9 -1"),
    (b"lui x1, -1", "1 Lui x1 -1"),
];

/// The first line with an error decides; bytes, in comments too.
const BYTE_ERRORS: &[Row] = &[
    (b"walk\nnop\x01", "line 1 mnemonic"),
    (b"nop\n\naddi x1, x1, q\n.walk", "line 3 number"),
    (b"# one\r\n\r\nadd x1\r\nwalk", "line 3 operand"),
    (b"nop\x01", "line 1 byte"),
    (b"nop \x7F", "line 1 byte"),
    (b"nop # \xC3\xA9", "line 1 byte"),
    (b"nop\r", "line 1 byte"),
    (b"nop\n\r", "line 2 byte"),
    (b"nop\r\r\n", "line 1 byte"),
    (b"no\rp\n", "line 1 byte"),
    (b"\0", "line 1 byte"),
    (b"\nnop\n\x0B\n", "line 3 byte"),
    (b"walk \x80", "line 1 byte"),
    (b"1: .walk x1, , \xFF", "line 1 byte"),
];

/// Words that are none, and bad names.
const WORD_ERRORS: &[Row] = &[
    (b"walk", "line 1 mnemonic"),
    (b"nop,", "line 1 mnemonic"),
    (b"a: b: nop", "line 1 mnemonic"),
    (b"1a: nop", "line 1 mnemonic"),
    (b": nop", "line 1 mnemonic"),
    (b"a b: nop", "line 1 mnemonic"),
    (b"a-b: .walk", "line 1 mnemonic"),
    (b".a: nop", "line 1 mnemonic"),
    (b"a,: add x1", "line 1 mnemonic"),
    (b"NOP", "line 1 mnemonic"),
    (b"Add x1, x2, x3", "line 1 mnemonic"),
    (b"addx x1, x2, x3", "line 1 mnemonic"),
    (b"ad x1, x2, x3", "line 1 mnemonic"),
    (b"subi x1, x1, 1", "line 1 mnemonic"),
    (b"add,x1,x2,x3", "line 1 mnemonic"),
    (b"nop: x1:", "line 1 mnemonic"),
    (b"add: walk q", "line 1 mnemonic"),
    (b"harts 2", "line 1 mnemonic"),
];

/// Words with a dot that are none.
const DOT_ERRORS: &[Row] = &[
    (b".walk", "line 1 directive"),
    (b".word,", "line 1 directive"),
    (b".", "line 1 directive"),
    (b".WORD 1", "line 1 directive"),
    (b"here: .words 1", "line 1 directive"),
    (b".globl main", "line 1 directive"),
    (b"nop\r\n.align 4\r\n", "line 2 directive"),
    (b"..text", "line 1 directive"),
    (b".add x1, x2, x3", "line 1 directive"),
];

/// A wrong count of operands, or an empty one.
const COUNT_ERRORS: &[Row] = &[
    (b"add", "line 1 operand"),
    (b"add x1, x2", "line 1 operand"),
    (b"add x1, x2, x3, x4", "line 1 operand"),
    (b"add x1,, x3", "line 1 operand"),
    (b"add x1, x2,", "line 1 operand"),
    (b"add ,x2, x3", "line 1 operand"),
    (b"add x99, q", "line 1 operand"),
    (b"addi x1, q", "line 1 operand"),
    (b"nop x0", "line 1 operand"),
    (b"nop ,", "line 1 operand"),
    (b"ret x1", "line 1 operand"),
    (b"ecall 0", "line 1 operand"),
    (b"mv x1", "line 1 operand"),
    (b"sw x1, x2, 4", "line 1 operand"),
    (b"jalr x1", "line 1 operand"),
    (b"jalr x1, x2, 0", "line 1 operand"),
    (b"j", "line 1 operand"),
    (b".word", "line 1 operand"),
    (b".word 1, 2", "line 1 operand"),
    (b".version", "line 1 operand"),
    (b".harts", "line 1 operand"),
    (b".heap 1", "line 1 operand"),
    (b".entry 0", "line 1 operand"),
    (b".text 1", "line 1 operand"),
    (b".comp 1, 2", "line 1 operand"),
];

/// No form of a number and a register in parentheses; neither a number in range nor a name.
const PLACE_ERRORS: &[Row] = &[
    (b"lw x1, 4", "line 1 operand"),
    (b"lw x99, 4", "line 1 operand"),
    (b"lw x1, 4(x2", "line 1 operand"),
    (b"lw x1, 4 x2)", "line 1 operand"),
    (b"lw x1, 4(x2)4", "line 1 operand"),
    (b"lw x1, 4((x2))", "line 1 operand"),
    (b"lw x1, )4(x2)", "line 1 operand"),
    (b"lw x1, 4(x2)(x3)", "line 1 operand"),
    (b"j 5z", "line 1 operand"),
    (b"beq x1, x2, 4294967296", "line 1 operand"),
    (b"jal x1, -0x1", "line 1 operand"),
    (b".word +1", "line 1 operand"),
    (b".word -2147483649", "line 1 operand"),
    (b"la x1, a b", "line 1 operand"),
    (b".entry 0, 0x", "line 1 operand"),
];

/// Operand by operand: registers.
const REGISTER_ERRORS: &[Row] = &[
    (b"add x32, x1, x2", "line 1 register"),
    (b"add x1, x01, x2", "line 1 register"),
    (b"add X1, x1, x2", "line 1 register"),
    (b"add x1, x2, x3 x4", "line 1 register"),
    (b"addi x1, 5, q", "line 1 register"),
    (b"lw x1, 4( x2 )", "line 1 register"),
    (b"lw x1, 4()", "line 1 register"),
    (b"lw x1, q(q)", "line 1 register"),
    (b"sw q, q(x1)", "line 1 register"),
    (b"jalr x1, 0(t7)", "line 1 register"),
    (b"beq x1, y, 5z", "line 1 register"),
    (b"la s12, 5z", "line 1 register"),
    (b"li 5, 5", "line 1 register"),
];

/// Operand by operand: numbers.
const NUMBER_ERRORS: &[Row] = &[
    (b"addi x1, x1, q", "line 1 number"),
    (b"addi x1, x1, 1 2", "line 1 number"),
    (b"lw x1, 4 (x2)", "line 1 number"),
    (b"lw x1, (x2)", "line 1 number"),
    (b"addi x1, x1, 0X1", "line 1 number"),
    (b"addi x1, x1, +1", "line 1 number"),
    (b"addi x1, x1, -0x1", "line 1 number"),
    (b"addi x1, x1, 4294967296", "line 1 number"),
    (b"addi x1, x1, -2147483649", "line 1 number"),
    (b"addi x1, x1, 0x100000000", "line 1 number"),
    (b"addi x1, x1, 0x", "line 1 number"),
    (b"addi x1, x1, 0xg", "line 1 number"),
    (b"addi x1, x1, -", "line 1 number"),
    (b"addi x1, x1, - 1", "line 1 number"),
    (b"lui x1, high", "line 1 number"),
    (b"li x1, name", "line 1 number"),
    (b".harts one", "line 1 number"),
    (b".entry q, 5z", "line 1 number"),
    (b".edge 1, two", "line 1 number"),
    (b".comp 1, 2, three", "line 1 number"),
    (b".version two", "line 1 number"),
    (b".version 4294967296", "line 1 number"),
    (b".comp 4294967296, 0, 0", "line 1 number"),
    (b".comp 0, -2147483649, 0", "line 1 number"),
    (b".comp 0, -0x1, 0", "line 1 number"),
    (
        b".comp 0, 340282366920938463463374607431768211456, 0",
        "line 1 number",
    ),
    (
        b".comp 0, 0, 0x100000000000000000000000000000000",
        "line 1 number",
    ),
    (
        b".comp 0, 0, 1000000000000000000000000000000000000000",
        "line 1 number",
    ),
];

/// A name's text.
fn name_told<'a>(name: &Name<'a>) -> &'a str {
    std::str::from_utf8(name.text()).unwrap_or("?")
}

/// A target as the tables write it.
fn target_told(alloc: Global, target: &Target<'_>) -> Result<String, AllocError> {
    match target {
        Target::Name(name) => format!(in alloc; "{}", name_told(name)),
        Target::Number(number) => format!(in alloc; "{number}"),
    }
}

/// A set of compartments as the tables write it.
fn mask_told(alloc: Global, mask: Option<u128>) -> Result<String, AllocError> {
    match mask {
        Some(mask) => format!(in alloc; "{mask}"),
        None => format!(in alloc; "negative"),
    }
}

/// A directive as the tables write it.
fn directive_told(alloc: Global, statement: &Statement<'_>) -> Result<String, AllocError> {
    match statement {
        Statement::Version(number) => format!(in alloc; ".version {number}"),
        Statement::Harts(number) => format!(in alloc; ".harts {number}"),
        Statement::Ram(number) => format!(in alloc; ".ram {number}"),
        Statement::Heap { base, bytes } => format!(in alloc; ".heap {base} {bytes}"),
        Statement::Entry { hart, target } => {
            format!(in alloc; ".entry {hart} {}", target_told(alloc, target)?.as_str())
        }
        Statement::Origin(number) => format!(in alloc; ".org {number}"),
        Statement::Word(target) => format!(in alloc;
            ".word {}",
            target_told(alloc, target)?.as_str()
        ),
        Statement::Zeros(number) => format!(in alloc; ".zero {number}"),
        Statement::Text => format!(in alloc; ".text"),
        Statement::Data => format!(in alloc; ".data"),
        Statement::Label(number) => format!(in alloc; ".label {number}"),
        Statement::Edge {
            source,
            destination,
        } => format!(in alloc; ".edge {source} {destination}"),
        Statement::Compartment { owner, into, write } => format!(in alloc;
            ".comp {owner} {} {}",
            mask_told(alloc, *into)?.as_str(),
            mask_told(alloc, *write)?.as_str()
        ),
        _ => format!(in alloc; "?"),
    }
}

/// A jump, or what has no other registers, as the tables write it.
fn jump_told(alloc: Global, statement: &Statement<'_>) -> Result<String, AllocError> {
    match statement {
        Statement::Jump { rd, target } => {
            format!(in alloc;
                "jal x{} {}",
                rd.number(),
                target_told(alloc, target)?.as_str()
            )
        }
        Statement::JumpRegister { rd, rs1, offset } => {
            format!(in alloc; "jalr x{} {offset}(x{})", rd.number(), rs1.number())
        }
        Statement::Fence => format!(in alloc; "fence"),
        Statement::Ecall => format!(in alloc; "ecall"),
        Statement::Ebreak => format!(in alloc; "ebreak"),
        Statement::LoadNumber { rd, number } => format!(in alloc; "li x{} {number}", rd.number()),
        Statement::LoadAddress { rd, target } => {
            format!(in alloc;
                "la x{} {}",
                rd.number(),
                target_told(alloc, target)?.as_str()
            )
        }
        _ => directive_told(alloc, statement),
    }
}

/// A load, a store or a branch, or what has at most one register, as the tables write it.
fn access_told(alloc: Global, statement: &Statement<'_>) -> Result<String, AllocError> {
    match statement {
        Statement::Load {
            operation,
            rd,
            rs1,
            offset,
        } => {
            format!(in alloc;
                "{operation:?} x{} {offset}(x{})",
                rd.number(),
                rs1.number()
            )
        }
        Statement::Store {
            operation,
            rs2,
            rs1,
            offset,
        } => {
            format!(in alloc;
                "{operation:?} x{} {offset}(x{})",
                rs2.number(),
                rs1.number()
            )
        }
        Statement::Branch {
            operation,
            rs1,
            rs2,
            target,
        } => {
            let target = target_told(alloc, target)?;
            format!(in alloc;
                "{operation:?} x{} x{} {}",
                rs1.number(),
                rs2.number(),
                target.as_str()
            )
        }
        _ => jump_told(alloc, statement),
    }
}

/// A statement as the tables write it.
fn statement_told(alloc: Global, statement: &Statement<'_>) -> Result<String, AllocError> {
    match statement {
        Statement::Registers {
            operation,
            rd,
            rs1,
            rs2,
        } => {
            format!(in alloc;
                "{operation:?} x{} x{} x{}",
                rd.number(),
                rs1.number(),
                rs2.number()
            )
        }
        Statement::Immediate {
            operation,
            rd,
            rs1,
            number,
        } => { format!(in alloc; "{operation:?} x{} x{} {number}", rd.number(), rs1.number()) }
        Statement::Shift {
            operation,
            rd,
            rs1,
            number,
        } => { format!(in alloc; "{operation:?} x{} x{} {number}", rd.number(), rs1.number()) }
        Statement::Upper {
            operation,
            rd,
            number,
        } => format!(in alloc; "{operation:?} x{} {number}", rd.number()),
        _ => access_told(alloc, statement),
    }
}

/// A line as the tables write it: its number, its name with a colon, and its statement.
fn line_told(alloc: Global, line: &Line<'_>) -> Result<String, AllocError> {
    let mut text = format!(in alloc; "{}", line.number)?;
    if let Some(name) = &line.label {
        text.push_str(" ")?;
        text.push_str(name_told(name))?;
        text.push_str(":")?;
    }
    if let Some(statement) = &line.statement {
        text.push_str(" ")?;
        text.push_str(statement_told(alloc, statement)?.as_str())?;
    }
    Ok(text)
}

/// What is read of a source, as the tables write it.
fn source_told(alloc: Global, source: &'static [u8]) -> Result<String, AllocError> {
    let lines = match read_source(alloc, source) {
        Ok(lines) => lines,
        Err(AsmEnd::Bad(error)) => return format!(in alloc; "{error}"),
        Err(AsmEnd::Memory) => return format!(in alloc; "no memory"),
    };
    let mut text = String::new(alloc);
    for line in &lines {
        if !text.is_empty() {
            text.push_str("; ")?;
        }
        text.push_str(line_told(alloc, line)?.as_str())?;
    }
    Ok(text)
}

/// Reads the source of each row, and compares.
fn check<R: Abort + AllocGlobal>(rt: &R, rows: &[Row]) -> Result<(), Fail> {
    for (source, want) in rows {
        let read = source_told(rt.alloc(), source)?;
        assert_eq!(rt; read.as_str(), *want, "{source:?}");
    }
    Ok(())
}

#[test]
fn forms_of_registers_are_read(rt: HostRuntime) -> Result<(), Fail> {
    check(&rt, REGISTER_FORMS)
}

#[test]
fn other_forms_are_read(rt: HostRuntime) -> Result<(), Fail> {
    check(&rt, OTHER_FORMS)
}

#[test]
fn directives_are_read(rt: HostRuntime) -> Result<(), Fail> {
    check(&rt, DIRECTIVES)
}

#[test]
fn registers_are_read(rt: HostRuntime) -> Result<(), Fail> {
    check(&rt, REGISTERS)
}

#[test]
fn ends_of_lines_and_names_are_read(rt: HostRuntime) -> Result<(), Fail> {
    check(&rt, ENDS_AND_NAMES)
}

#[test]
fn numbers_are_read(rt: HostRuntime) -> Result<(), Fail> {
    check(&rt, NUMBERS)
}

#[test]
fn bytes_that_are_not_allowed_are_told(rt: HostRuntime) -> Result<(), Fail> {
    check(&rt, BYTE_ERRORS)
}

#[test]
fn unknown_words_are_told(rt: HostRuntime) -> Result<(), Fail> {
    check(&rt, WORD_ERRORS)
}

#[test]
fn unknown_directives_are_told(rt: HostRuntime) -> Result<(), Fail> {
    check(&rt, DOT_ERRORS)
}

#[test]
fn counts_of_operands_are_told(rt: HostRuntime) -> Result<(), Fail> {
    check(&rt, COUNT_ERRORS)
}

#[test]
fn operands_without_their_form_are_told(rt: HostRuntime) -> Result<(), Fail> {
    check(&rt, PLACE_ERRORS)
}

#[test]
fn bad_registers_are_told(rt: HostRuntime) -> Result<(), Fail> {
    check(&rt, REGISTER_ERRORS)
}

#[test]
fn bad_numbers_are_told(rt: HostRuntime) -> Result<(), Fail> {
    check(&rt, NUMBER_ERRORS)
}
