//! Writers of operands, which append them to a line.

ghost use Rattle.std.specs.Prelude.{◌≡◌, ◌+◌, ◌≤◌, ◌++◌};
ghost use Rattle.arrayvec.specs.ArrayVec.{array_vec_len};
ghost use Rattle.asm_show.specs.Operands.{amount, immediate, place, register, target, upper, whole};

use pump_words::{Line, dec, hex5, hex8, write_text};
use rv_decode::{Immediate, Register, ShiftAmount, UpperImmediate};

/// Appends a register.
#[tactic(auto, using(crate::proofs::TextLemmas::numbers))]
pub(crate) fn write_register(line: &mut Line, r: Register)
    requires { array_vec_len line.old + 3 ≤ 512 }
    ensures text { line.new.items ≡ line.old.items ++ register r }
    ensures short { array_vec_len line.new ≤ array_vec_len line.old + 3 }
{
    write_text(line, b"x");
    dec(line, u64::from(r.number()));
}

/// Appends an immediate of 12 bits.
#[tactic(auto, using(crate::proofs::TextLemmas::numbers))]
pub(crate) fn write_immediate(line: &mut Line, imm: Immediate)
    requires { array_vec_len line.old + 5 ≤ 512 }
    ensures text { line.new.items ≡ line.old.items ++ immediate imm }
    ensures short { array_vec_len line.new ≤ array_vec_len line.old + 5 }
{
    let word = imm.word();
    if word < 0x800 {
        dec(line, u64::from(word));
    } else {
        write_text(line, b"-");
        dec(line, u64::from(word.wrapping_neg()));
    }
}

/// Appends the amount of a shift.
#[tactic(auto, using(crate::proofs::TextLemmas::numbers))]
pub(crate) fn write_amount(line: &mut Line, imm: ShiftAmount)
    requires { array_vec_len line.old + 2 ≤ 512 }
    ensures text { line.new.items ≡ line.old.items ++ amount imm }
    ensures short { array_vec_len line.new ≤ array_vec_len line.old + 2 }
{
    dec(line, u64::from(imm.count()));
}

/// Appends the upper 20 bits of a word.
pub(crate) fn write_upper(line: &mut Line, imm: UpperImmediate)
    requires { array_vec_len line.old + 7 ≤ 512 }
    ensures text { line.new.items ≡ line.old.items ++ upper imm }
    ensures short { array_vec_len line.new ≤ array_vec_len line.old + 7 }
{
    write_text(line, b"0x");
    hex5(line, imm.word());
}

/// Appends a whole word.
pub(crate) fn write_whole(line: &mut Line, word: u32)
    requires { array_vec_len line.old + 10 ≤ 512 }
    ensures text { line.new.items ≡ line.old.items ++ whole word }
    ensures len { array_vec_len line.new ≡ array_vec_len line.old + 10 }
{
    write_text(line, b"0x");
    hex8(line, word);
}

/// Appends where a branch or a jump at `pc` goes.
pub(crate) fn write_target(line: &mut Line, pc: u32, offset: u32)
    requires { array_vec_len line.old + 10 ≤ 512 }
    ensures text { line.new.items ≡ line.old.items ++ target pc offset }
    ensures len { array_vec_len line.new ≡ array_vec_len line.old + 10 }
{
    write_whole(line, pc.wrapping_add(offset));
}

/// Appends an offset from what a register holds.
pub(crate) fn write_place(line: &mut Line, imm: Immediate, base: Register)
    requires { array_vec_len line.old + 10 ≤ 512 }
    ensures text { line.new.items ≡ line.old.items ++ place imm base }
    ensures short { array_vec_len line.new ≤ array_vec_len line.old + 10 }
{
    write_immediate(line, imm);
    write_text(line, b"(");
    write_register(line, base);
    write_text(line, b")");
}
