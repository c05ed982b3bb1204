//! The line of a stop.

ghost use Rattle.std.specs.Prelude.{◌≡◌, ◌+◌, ◌≤◌, ◌++◌, length};
ghost use Rattle.std.specs.Fmt.{decimal};
ghost use Rattle.arrayvec.specs.ArrayVec.{array_vec_len};
ghost use Rattle.pump_words.specs.Texts.{hex8_text};
ghost use Rattle.tag_text.specs.Texts.{
  fault_text,
  group_text,
  part_text,
  stop_line,
  stop_text,
  why_text,
};

use policy_trait::{Part, Why};
use pump_words::{Line, dec, hex8, write_text};
use rv_decode::Group;
use rv_step::Fault;
use turn_steps::Stop;

/// Appends the line that tells the stop of hart `h`, with its newline: `stop H exit C`,
/// `stop H fault F` or `stop H violation PART WHY pc A`, H and C in decimal, A eight hexadecimal
/// digits in upper case. It has at most 100 bytes, for which the line must have room.
#[tactic(auto, unfolding(crate::specs::Texts::stop_line))]
pub fn write_stop_line(line: &mut Line, h: u32, why: Stop)
    requires { array_vec_len line.old + 100 ≤ 512 }
    ensures { line.new.items ≡ line.old.items ++ stop_line h why }
{
    write_text(line, b"stop ");
    dec(line, u64::from(h));
    write_text(line, b" ");
    write_stop(line, why);
    write_text(line, b"\n");
}

/// Appends why a hart stopped.
fn write_stop(line: &mut Line, why: Stop)
    requires { array_vec_len line.old + 70 ≤ 512 }
    ensures text { line.new.items ≡ line.old.items ++ stop_text why }
    ensures short { array_vec_len line.new ≤ array_vec_len line.old + 70 }
{
    match why {
        Stop::Exit(code) => {
            write_text(line, b"exit ");
            dec(line, u64::from(code));
        }
        Stop::Fault(fault) => {
            write_text(line, b"fault ");
            write_fault(line, fault);
        }
        Stop::Violation { part, why, pc } => {
            write_text(line, b"violation ");
            write_part(line, part);
            write_text(line, b" ");
            write_why(line, why);
            write_text(line, b" pc ");
            hex8(line, pc);
        }
    }
}

/// Appends a fault with its value.
fn write_fault(line: &mut Line, fault: Fault)
    requires { array_vec_len line.old + 40 ≤ 512 }
    ensures text { line.new.items ≡ line.old.items ++ fault_text fault }
    ensures short { array_vec_len line.new ≤ array_vec_len line.old + 40 }
{
    match fault {
        Fault::Fetch(address) => write_at(line, b"fetch ", address),
        Fault::Illegal(word) => write_at(line, b"illegal ", word),
        Fault::LoadAlign(address) => write_at(line, b"loadalign ", address),
        Fault::StoreAlign(address) => write_at(line, b"storealign ", address),
        Fault::LoadRange(address) => write_at(line, b"loadrange ", address),
        Fault::StoreRange(address) => write_at(line, b"storerange ", address),
        Fault::JumpAlign(target) => write_at(line, b"jumpalign ", target),
        Fault::NoService(number) => write_number(line, b"noservice ", u64::from(number)),
        Fault::Spent(number) => write_number(line, b"spent ", u64::from(number)),
    }
}

/// Appends a text and a word in hexadecimal.
fn write_at(line: &mut Line, text: &[u8], word: u32)
    requires { array_vec_len line.old + length text.now + 8 ≤ 512 }
    ensures text { line.new.items ≡ line.old.items ++ (text.now ++ hex8_text word) }
    ensures len { array_vec_len line.new ≡ array_vec_len line.old + length text.now + 8 }
{
    write_text(line, text);
    hex8(line, word);
}

/// Appends a text and a number in decimal.
pub fn write_number(line: &mut Line, text: &[u8], number: u64)
    requires { array_vec_len line.old + length text.now + 20 ≤ 512 }
    ensures text { line.new.items ≡ line.old.items ++ (text.now ++ decimal number) }
    ensures short { array_vec_len line.new ≤ array_vec_len line.old + length text.now + 20 }
{
    write_text(line, text);
    dec(line, number);
}

/// Appends a policy's name.
fn write_part(line: &mut Line, part: Part)
    requires { array_vec_len line.old + 6 ≤ 512 }
    ensures text { line.new.items ≡ line.old.items ++ part_text part }
    ensures short { array_vec_len line.new ≤ array_vec_len line.old + 6 }
{
    match part {
        Part::Seal => write_text(line, b"seal"),
        Part::Comp => write_text(line, b"comp"),
        Part::Flow => write_text(line, b"flow"),
        Part::Heap => write_text(line, b"heap"),
        Part::Secret => write_text(line, b"secret"),
        Part::Own => write_text(line, b"own"),
    }
}

/// Appends why a policy refused.
fn write_why(line: &mut Line, why: Why)
    requires { array_vec_len line.old + 20 ≤ 512 }
    ensures text { line.new.items ≡ line.old.items ++ why_text why }
    ensures short { array_vec_len line.new ≤ array_vec_len line.old + 20 }
{
    match why {
        Why::Rule(group) => {
            write_text(line, b"rule(");
            write_group(line, group);
            write_text(line, b")");
        }
        Why::Args => write_text(line, b"args"),
        Why::Range => write_text(line, b"range"),
        Why::NotOwner => write_text(line, b"notowner"),
        Why::WrongKey => write_text(line, b"wrongkey"),
        Why::NotLive => write_text(line, b"notlive"),
        Why::Lend => write_text(line, b"lend"),
        Why::Consent => write_text(line, b"consent"),
        Why::Peek => write_text(line, b"peek"),
    }
}

/// Appends a group's name.
fn write_group(line: &mut Line, group: Group)
    requires { array_vec_len line.old + 9 ≤ 512 }
    ensures text { line.new.items ≡ line.old.items ++ group_text group }
    ensures short { array_vec_len line.new ≤ array_vec_len line.old + 9 }
{
    match group {
        Group::Const => write_text(line, b"const"),
        Group::Here => write_text(line, b"here"),
        Group::Jal => write_text(line, b"jal"),
        Group::Jalr => write_text(line, b"jalr"),
        Group::Branch => write_text(line, b"branch"),
        Group::LoadWord => write_text(line, b"loadword"),
        Group::LoadPart => write_text(line, b"loadpart"),
        Group::StoreWord => write_text(line, b"storeword"),
        Group::StorePart => write_text(line, b"storepart"),
        Group::Move => write_text(line, b"move"),
        Group::AddImm => write_text(line, b"addimm"),
        Group::AluImm => write_text(line, b"aluimm"),
        Group::Add => write_text(line, b"add"),
        Group::Sub => write_text(line, b"sub"),
        Group::Alu => write_text(line, b"alu"),
        Group::Fence => write_text(line, b"fence"),
        Group::Exit => write_text(line, b"exit"),
        Group::Put => write_text(line, b"put"),
        Group::Get => write_text(line, b"get"),
        Group::Break => write_text(line, b"break"),
        Group::Call => write_text(line, b"call"),
    }
}
