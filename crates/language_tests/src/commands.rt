//! Lines, each with what is read of it.

use crate::answers::{is_blank, is_too_long};
use shell_lang::{Command, read_command};
use std::process::Abort;

/// A command, told apart: its name, its numbers, 0 for none, and its bytes or digits.
type Told<'a> = (&'static str, [u32; 2], &'a [u8]);

/// No bytes and no digits.
const NONE: &[u8] = b"";

/// Lines that are read.
const LINES: &[(&[u8], Told<'static>)] = &[
    (b"", ("blank", [0, 0], NONE)),
    (b"   ", ("blank", [0, 0], NONE)),
    (b"step 3 12", ("step", [3, 12], NONE)),
    (
        b"  step  0000000007   1000000000 ",
        ("step", [7, 1000000000], NONE),
    ),
    (b"step 0 0", ("step", [0, 0], NONE)),
    (b"run 0", ("run", [0, 0], NONE)),
    (b"run 1000000000", ("run", [1000000000, 0], NONE)),
    (b"back 0", ("back", [0, 0], NONE)),
    (b"back 65536", ("back", [65536, 0], NONE)),
    (b"turns 0192", ("turns", [0, 0], &[0, 1, 9, 2])),
    (b"feed 2aFF00", ("feed", [0, 0], &[42, 255, 0])),
    (b"regs 7", ("regs", [7, 0], NONE)),
    (b"pc 0", ("pc", [0, 0], NONE)),
    (b"mem 0 1", ("mem", [0, 1], NONE)),
    (b"mem 00fFfFfC 1024", ("mem", [16777212, 1024], NONE)),
    (b"mem FFFFFFFC 0000000001", ("mem", [4294967292, 1], NONE)),
    (b"tags 10 2", ("tags", [16, 2], NONE)),
    (b"dis 0 1", ("dis", [0, 1], NONE)),
    (b" dis 00fffffc  1024 ", ("dis", [16777212, 1024], NONE)),
    (b"why 2", ("why", [2, 0], NONE)),
    (b"blocks", ("blocks", [0, 0], NONE)),
    (b"stats ", ("stats", [0, 0], NONE)),
    (b" sweeps", ("sweeps", [0, 0], NONE)),
    (b"break 1c", ("break", [28, 0], NONE)),
    (b"clear 1C", ("clear", [28, 0], NONE)),
    (b"reset", ("reset", [0, 0], NONE)),
    (b"quit", ("quit", [0, 0], NONE)),
];

/// A line with the number of its refusal.
type Refused = (&'static [u8], u32);

/// Lines whose first word is no command, or whose command has another number of operands.
const BAD_WORDS: &[Refused] = &[
    (b"walk", 1),
    (b"Step 0 0", 1),
    (b"stepp 0 0", 1),
    (b"qui", 1),
    (b"Dis 0 1", 1),
    (b"disa 0 1", 1),
    (b"\tquit", 1),
    (b"quit\r", 1),
    (b"step", 2),
    (b"step 9", 2),
    (b"step x", 2),
    (b"step 0 1 2", 2),
    (b"run", 2),
    (b"turns", 2),
    (b"turns 0 1", 2),
    (b"feed", 2),
    (b"feed 4 4", 2),
    (b"regs 8 8", 2),
    (b"mem 2", 2),
    (b"dis 0", 2),
    (b"stats 1", 2),
    (b"sweeps 1", 2),
    (b"break", 2),
    (b"quit now", 2),
];

/// Lines with an operand that is badly written, that isn't an even number of hexadecimal digits, or that is out of its range.
const BAD_OPERANDS: &[Refused] = &[
    (b" step  9 x ", 3),
    (b"step -1 1", 3),
    (b"run 00000000007", 3),
    (b"run +7", 3),
    (b"run 7\t", 3),
    (b"turns 01x", 3),
    (b"mem 2 x", 3),
    (b"mem 0x4 1", 3),
    (b"mem 000000004 1", 3),
    (b"dis 2 -1", 3),
    (b"break g", 3),
    (b"feed 4", 5),
    (b"feed 4g", 5),
    (b"feed 0x", 5),
    (b"step 9 1", 4),
    (b"step 8 1000000000", 4),
    (b"run 1000000001", 4),
    (b"mem 2 1", 4),
    (b"mem 4 0", 4),
    (b"back 65537", 4),
    (b"tags 4 1025", 4),
    (b"dis 2 1", 4),
    (b"dis 4 1025", 4),
    (b"clear 2", 4),
];

/// What a command asks for, told apart.
fn told(command: &Command) -> Told<'_> {
    match command {
        Command::Blank => ("blank", [0, 0], NONE),
        Command::Step(hart, turns) => ("step", [*hart, *turns], NONE),
        Command::Run(turns) => ("run", [*turns, 0], NONE),
        Command::Back(turns) => ("back", [*turns, 0], NONE),
        Command::Turns(digits) => ("turns", [0, 0], digits.values()),
        Command::Feed(bytes) => ("feed", [0, 0], bytes.values()),
        Command::Regs(hart) => ("regs", [*hart, 0], NONE),
        Command::Pc(hart) => ("pc", [*hart, 0], NONE),
        Command::Mem(place, count) => ("mem", [*place, *count], NONE),
        Command::Tags(place, count) => ("tags", [*place, *count], NONE),
        Command::Dis(place, count) => ("dis", [*place, *count], NONE),
        Command::Why(hart) => ("why", [*hart, 0], NONE),
        Command::Blocks => ("blocks", [0, 0], NONE),
        Command::Stats => ("stats", [0, 0], NONE),
        Command::Sweeps => ("sweeps", [0, 0], NONE),
        Command::Break(place) => ("break", [*place, 0], NONE),
        Command::Clear(place) => ("clear", [*place, 0], NONE),
        Command::Reset => ("reset", [0, 0], NONE),
        Command::Quit => ("quit", [0, 0], NONE),
    }
}

/// Whether a line is read as a command that is told so.
fn is_told(line: &[u8], want: Told<'_>) -> bool {
    let Ok(command) = &read_command(line) else {
        return false;
    };
    let (name, numbers, bytes) = told(command);
    name == want.0 && numbers == want.1 && bytes == want.2
}

#[test]
fn each_line_is_read(rt: HostRuntime) {
    for &(line, want) in LINES {
        assert!(rt; is_told(line, want), "{line:?}");
    }
}

/// Whether a line is refused by that number.
fn is_refused(line: &[u8], number: u32) -> bool {
    match read_command(line) {
        Ok(_) => false,
        Err(refusal) => refusal.number() == number,
    }
}

/// Reads the line of each row, which is to be refused by its number.
fn check<R: Abort + AllocGlobal>(rt: &R, rows: &[Refused]) {
    for &(line, number) in rows {
        assert!(rt; is_refused(line, number), "{line:?}");
    }
}

#[test]
fn bad_words_are_refused(rt: HostRuntime) {
    check(&rt, BAD_WORDS);
}

#[test]
fn bad_operands_are_refused(rt: HostRuntime) {
    check(&rt, BAD_OPERANDS);
}

/// Lines of blanks, which mean nothing, up to the longest that is taken.
#[test]
fn a_line_has_a_limit(rt: HostRuntime) {
    let blanks = [b' '; 257];
    assert!(rt; is_blank(&read_command(&blanks[..256])));
    assert!(rt; is_too_long(&read_command(&blanks)));
}
