//! The lines of replies, each put as one piece.

ghost use Rattle.std.specs.Prelude.{◌≡◌, ◌+◌, ◌≤◌, ◌++◌, ◌∷◌, []};
ghost use Rattle.arrayvec.specs.ArrayVec.{array_vec_len};
ghost use Rattle.host_io.specs.Pieces.{out as piece};
ghost use Rattle.asm_show.specs.Listing.{listing_line};
ghost use Rattle.shell_turns.specs.Cuts.{ObeyCause, PutsOut};
ghost use Rattle.shell_run.specs.Lines.{back_line, block_line, or_dash, pc_line, ready_line, refusal_line, register_line, stats_line, sweeps_line, tag_line, turns_line, word_line};

use asm_show::list_word;
use engine_trait::Counts;
use host_io::Sink;
use policy_trait::Policy;
use pump_words::{Line, hex8, write_text};
use shell_turns::{ObeyEnd, put_line};
use tag_text::write_number;

/// Appends the text of a tag, `-` where the policy writes nothing.
fn write_tag<P: Policy>(line: &mut Line, policy: &P, tag: P::Tag)
    requires room { array_vec_len line.old + 460 ≤ 512 }
    requires longest { P.longest ≤ 460 }
    ensures text { line.new.items ≡ line.old.items ++ or_dash (P.model.text policy.now tag) }
    ensures short { array_vec_len line.new ≤ array_vec_len line.old + 460 }
{
    let before = line.len();
    policy.show(tag, line);
    if line.len() == before {
        write_text(line, b"-");
    }
}

/// Puts a register's number, value and tag.
#[tactic(auto, unfolding(crate::specs::Lines::register_line))]
pub(crate) fn put_register<P: Policy, K: Sink>(
    r: u32,
    value: u32,
    policy: &P,
    tag: P::Tag,
    out: &mut K,
) -> Result<(), ObeyEnd>
    requires { P.longest ≤ 460 }
    ensures puts { PutsOut (K.taken out.old) (K.taken out.new)
        (piece (register_line r value (P.model.text policy.now tag)) ∷ []) result }
    ensures cause { ObeyCause (K.faults out.old) (K.faults out.new) result }
{
    let mut line = Line::new();
    write_number(&mut line, b"x", u64::from(r));
    write_text(&mut line, b" ");
    hex8(&mut line, value);
    write_text(&mut line, b" ");
    write_tag(&mut line, policy, tag);
    write_text(&mut line, b"\n");
    put_line(&line, out)
}

/// Puts a pc and its tag.
#[tactic(auto, unfolding(crate::specs::Lines::pc_line))]
pub(crate) fn put_pc<P: Policy, K: Sink>(
    pc: u32,
    policy: &P,
    tag: P::Tag,
    out: &mut K,
) -> Result<(), ObeyEnd>
    requires { P.longest ≤ 460 }
    ensures puts { PutsOut (K.taken out.old) (K.taken out.new)
        (piece (pc_line pc (P.model.text policy.now tag)) ∷ []) result }
    ensures cause { ObeyCause (K.faults out.old) (K.faults out.new) result }
{
    let mut line = Line::new();
    write_text(&mut line, b"pc ");
    hex8(&mut line, pc);
    write_text(&mut line, b" ");
    write_tag(&mut line, policy, tag);
    write_text(&mut line, b"\n");
    put_line(&line, out)
}

/// Puts an address and the word there.
#[tactic(auto, unfolding(crate::specs::Lines::word_line))]
pub(crate) fn put_word<K: Sink>(address: u32, word: u32, out: &mut K) -> Result<(), ObeyEnd>
    ensures puts { PutsOut (K.taken out.old) (K.taken out.new)
        (piece (word_line address word) ∷ []) result }
    ensures cause { ObeyCause (K.faults out.old) (K.faults out.new) result }
{
    let mut line = Line::new();
    hex8(&mut line, address);
    write_text(&mut line, b" ");
    hex8(&mut line, word);
    write_text(&mut line, b"\n");
    put_line(&line, out)
}

/// Puts an address and the tag of the word there.
#[tactic(auto, unfolding(crate::specs::Lines::tag_line))]
pub(crate) fn put_tag<P: Policy, K: Sink>(
    address: u32,
    policy: &P,
    tag: P::Tag,
    out: &mut K,
) -> Result<(), ObeyEnd>
    requires { P.longest ≤ 460 }
    ensures puts { PutsOut (K.taken out.old) (K.taken out.new)
        (piece (tag_line address (P.model.text policy.now tag)) ∷ []) result }
    ensures cause { ObeyCause (K.faults out.old) (K.faults out.new) result }
{
    let mut line = Line::new();
    hex8(&mut line, address);
    write_text(&mut line, b" ");
    write_tag(&mut line, policy, tag);
    write_text(&mut line, b"\n");
    put_line(&line, out)
}

/// Puts an address, the word there, and the statement of assembler source that stands for it.
pub(crate) fn put_statement<K: Sink>(address: u32, word: u32, out: &mut K) -> Result<(), ObeyEnd>
    ensures puts { PutsOut (K.taken out.old) (K.taken out.new)
        (piece (listing_line address word) ∷ []) result }
    ensures cause { ObeyCause (K.faults out.old) (K.faults out.new) result }
{
    let mut line = Line::new();
    list_word(address, word, &mut line);
    put_line(&line, out)
}

/// Puts that a hart is ready.
#[tactic(auto, unfolding(crate::specs::Lines::ready_line))]
pub(crate) fn put_ready<K: Sink>(h: u32, out: &mut K) -> Result<(), ObeyEnd>
    ensures puts { PutsOut (K.taken out.old) (K.taken out.new) (piece (ready_line h) ∷ []) result }
    ensures cause { ObeyCause (K.faults out.old) (K.faults out.new) result }
{
    let mut line = Line::new();
    write_number(&mut line, b"ready ", u64::from(h));
    write_text(&mut line, b"\n");
    put_line(&line, out)
}

/// Puts a block's number, its base and how many words it has.
#[tactic(auto, unfolding(crate::specs::Lines::block_line))]
pub(crate) fn put_block<K: Sink>(block: (u32, u32, u32), out: &mut K) -> Result<(), ObeyEnd>
    ensures puts { PutsOut (K.taken out.old) (K.taken out.new)
        (piece (block_line block) ∷ []) result }
    ensures cause { ObeyCause (K.faults out.old) (K.faults out.new) result }
{
    let (number, base, words) = block;
    let mut line = Line::new();
    write_number(&mut line, b"block ", u64::from(number));
    write_text(&mut line, b" ");
    hex8(&mut line, base);
    write_number(&mut line, b" ", u64::from(words));
    write_text(&mut line, b"\n");
    put_line(&line, out)
}

/// Puts the counts of turns, hits and misses.
#[tactic(auto, unfolding(crate::specs::Lines::stats_line))]
pub(crate) fn put_stats<K: Sink>(counts: Counts, out: &mut K) -> Result<(), ObeyEnd>
    ensures puts { PutsOut (K.taken out.old) (K.taken out.new)
        (piece (stats_line counts) ∷ []) result }
    ensures cause { ObeyCause (K.faults out.old) (K.faults out.new) result }
{
    let mut line = Line::new();
    write_number(&mut line, b"stats turns ", counts.turns);
    write_number(&mut line, b" hits ", counts.hits);
    write_number(&mut line, b" misses ", counts.misses);
    write_text(&mut line, b"\n");
    put_line(&line, out)
}

/// Puts the count of sweeps.
#[tactic(auto, unfolding(crate::specs::Lines::sweeps_line))]
pub(crate) fn put_sweeps<K: Sink>(count: u64, out: &mut K) -> Result<(), ObeyEnd>
    ensures puts { PutsOut (K.taken out.old) (K.taken out.new)
        (piece (sweeps_line count) ∷ []) result }
    ensures cause { ObeyCause (K.faults out.old) (K.faults out.new) result }
{
    let mut line = Line::new();
    write_number(&mut line, b"sweeps ", count);
    write_text(&mut line, b"\n");
    put_line(&line, out)
}

/// Puts how many turns of a command were counted.
#[tactic(auto, unfolding(crate::specs::Lines::turns_line))]
pub(crate) fn put_turns<K: Sink>(count: u32, out: &mut K) -> Result<(), ObeyEnd>
    ensures puts { PutsOut (K.taken out.old) (K.taken out.new)
        (piece (turns_line count) ∷ []) result }
    ensures cause { ObeyCause (K.faults out.old) (K.faults out.new) result }
{
    let mut line = Line::new();
    write_number(&mut line, b"turns ", u64::from(count));
    write_text(&mut line, b"\n");
    put_line(&line, out)
}

/// Puts how many turns were taken back.
#[tactic(auto, unfolding(crate::specs::Lines::back_line))]
pub(crate) fn put_back<K: Sink>(count: u32, out: &mut K) -> Result<(), ObeyEnd>
    ensures puts { PutsOut (K.taken out.old) (K.taken out.new)
        (piece (back_line count) ∷ []) result }
    ensures cause { ObeyCause (K.faults out.old) (K.faults out.new) result }
{
    let mut line = Line::new();
    write_number(&mut line, b"back ", u64::from(count));
    write_text(&mut line, b"\n");
    put_line(&line, out)
}

/// Puts a refusal by its number.
#[tactic(auto, unfolding(crate::specs::Lines::refusal_line))]
pub fn put_refusal<K: Sink>(number: u32, out: &mut K) -> Result<(), ObeyEnd>
    ensures puts { PutsOut (K.taken out.old) (K.taken out.new)
        (piece (refusal_line number) ∷ []) result }
    ensures cause { ObeyCause (K.faults out.old) (K.faults out.new) result }
{
    let mut line = Line::new();
    write_number(&mut line, b"? ", u64::from(number));
    write_text(&mut line, b"\n");
    put_line(&line, out)
}
