//! What a turn tells, on one sink: standard output.

ghost use Rattle.std.specs.Prelude.{◌≡◌, ◌++◌, ◌∷◌, []};
ghost use Rattle.host_io.specs.Pieces.{out as piece};
ghost use Rattle.tag_text.specs.Texts.{stop_line};
ghost use Rattle.shell_turns.specs.Cuts.{ObeyCause, PutsOut, answer_of};
ghost use Rattle.shell_turns.specs.Told.{break_line, break_pieces, end_pieces, is_break, out_line};

use crate::breaks::is_break;
use crate::ends::ObeyEnd;
use engine_trait::{Stop, TurnEnd};
use host_io::{PutEnd, Sink};
use pump_words::{Line, hex2, hex8, write_text};
use tag_text::write_number;

/// The answer of a put, as that of a command.
fn answer_of(put: Result<(), PutEnd>) -> Result<(), ObeyEnd>
    ensures { result ≡ answer_of put }
{
    match put {
        Ok(()) => Ok(()),
        Err(PutEnd::Failed) => Err(ObeyEnd::WriteFault),
        Err(PutEnd::Memory) => Err(ObeyEnd::Memory),
    }
}

/// Puts a line as one piece.
#[tactic(auto, using(crate::proofs::PutLemmas::put_answered, crate::proofs::PutLemmas::cause_answered))]
pub fn put_line<K: Sink>(line: &[u8], out: &mut K) -> Result<(), ObeyEnd>
    ensures puts { PutsOut (K.taken out.old) (K.taken out.new) (piece line.now ∷ []) result }
    ensures cause { ObeyCause (K.faults out.old) (K.faults out.new) result }
{
    answer_of(out.put(line))
}

/// Puts the line of a byte that a program put.
#[inline(never)]
#[tactic(auto, unfolding(crate::specs::Told::out_line))]
fn put_byte<K: Sink>(byte: u8, out: &mut K) -> Result<(), ObeyEnd>
    ensures puts { PutsOut (K.taken out.old) (K.taken out.new) (piece (out_line byte) ∷ []) result }
    ensures cause { ObeyCause (K.faults out.old) (K.faults out.new) result }
{
    let mut line = Line::new();
    write_text(&mut line, b"out ");
    hex2(&mut line, byte);
    write_text(&mut line, b"\n");
    put_line(&line, out)
}

/// Puts the line of the stop of hart `h`.
#[tactic(auto, using(crate::proofs::PutLemmas::put_answered, crate::proofs::PutLemmas::cause_answered))]
pub fn put_stop_line<K: Sink>(h: u32, why: Stop, out: &mut K) -> Result<(), ObeyEnd>
    ensures puts { PutsOut (K.taken out.old) (K.taken out.new)
        (piece (stop_line h why) ∷ []) result }
    ensures cause { ObeyCause (K.faults out.old) (K.faults out.new) result }
{
    answer_of(rounds::put_stop(h, why, out))
}

/// Puts the line of a break of hart `h`, whose pc is then this one.
#[inline(never)]
#[tactic(auto, unfolding(crate::specs::Told::break_line))]
fn put_break<K: Sink>(h: u32, pc: u32, out: &mut K) -> Result<(), ObeyEnd>
    ensures puts { PutsOut (K.taken out.old) (K.taken out.new)
        (piece (break_line h pc) ∷ []) result }
    ensures cause { ObeyCause (K.faults out.old) (K.faults out.new) result }
{
    let mut line = Line::new();
    write_number(&mut line, b"break ", u64::from(h));
    write_text(&mut line, b" pc ");
    hex8(&mut line, pc);
    write_text(&mut line, b"\n");
    put_line(&line, out)
}

/// Tells how a turn of hart `h` ended.
#[inline(always)]
#[tactic(auto, using(crate::proofs::PutLemmas::puts_nothing))]
fn tell_end<K: Sink>(h: u32, end: TurnEnd, out: &mut K) -> Result<(), ObeyEnd>
    ensures puts { PutsOut (K.taken out.old) (K.taken out.new) (end_pieces h end) result }
    ensures cause { ObeyCause (K.faults out.old) (K.faults out.new) result }
{
    match end {
        TurnEnd::Ran(Some(byte)) => put_byte(byte, out),
        TurnEnd::Stopped(why) => put_stop_line(h, why, out),
        TurnEnd::TagsOut => put_line(b"tags out\n", out),
        _ => Ok(()),
    }
}

/// Tells a break of hart `h`, if it is one.
#[inline(always)]
#[tactic(auto, using(crate::proofs::PutLemmas::puts_nothing))]
fn tell_break<K: Sink>(is_break: bool, h: u32, pc: u32, out: &mut K) -> Result<(), ObeyEnd>
    ensures puts { PutsOut (K.taken out.old) (K.taken out.new) (break_pieces is_break h pc) result }
    ensures cause { ObeyCause (K.faults out.old) (K.faults out.new) result }
{
    if is_break {
        put_break(h, pc, out)
    } else {
        Ok(())
    }
}

/// Tells what a turn of hart `h` that ended so shows, its pc then being this one.
#[inline(always)]
pub(crate) fn tell<K: Sink>(
    breaks: &[u32],
    h: u32,
    pc: u32,
    end: TurnEnd,
    out: &mut K,
) -> Result<(), ObeyEnd>
    ensures puts { PutsOut (K.taken out.old) (K.taken out.new)
        (end_pieces h end ++ break_pieces (is_break breaks.now pc end) h pc) result }
    ensures cause { ObeyCause (K.faults out.old) (K.faults out.new) result }
{
    tell_end(h, end, out)?;
    tell_break(is_break(breaks, pc, end), h, pc, out)
}
