//! The loop of turns.

ghost use Rattle.std.specs.Prelude.{◌≡◌, ◌<◌, IfErr, IfOk, OnOk, length};
ghost use Rattle.engine_trait.specs.Standing.{step};
ghost use Rattle.shell_turns.specs.Cuts.{ObeyCause, PutsOut, TurnCut, TurnsCut};
ghost use Rattle.shell_turns.specs.Order.{AreHarts, order_of};
ghost use Rattle.shell_turns.specs.Turns.{Leaves, pc_after, step_pieces, turns};

use crate::breaks::{count_of, is_last};
use crate::ends::ObeyEnd;
use crate::order::{Order, next_of};
use crate::telling::tell;
use engine_trait::{Engine, Feed, TurnEnd};
use host_io::Sink;

/// One turn of a hart, and what it tells. The answer is how the turn ended, and the hart's pc then.
#[inline(always)]
#[tactic(auto, using(crate::proofs::PutLemmas::puts_as, crate::proofs::PutLemmas::puts_cut_as, crate::proofs::PutLemmas::puts_not_begun))]
fn make_turn<E: Engine, K: Sink>(
    engine: &mut E,
    h: u32,
    feed: &mut Feed,
    breaks: &[u32],
    out: &mut K,
) -> Result<(TurnEnd, u32), ObeyEnd>
    requires { h < length (E.standing engine.old).machine.core.harts }
    ensures ended { IfOk result (λ made.
        made.0 ≡ (step E.P.Tag.eq E.P.model (E.standing engine.old) feed.old h).ended) }
    ensures pc { IfOk result (λ made. made.1
        ≡ pc_after h (step E.P.Tag.eq E.P.model (E.standing engine.old) feed.old h)) }
    ensures standing { OnOk result (E.standing engine.new
        ≡ (step E.P.Tag.eq E.P.model (E.standing engine.old) feed.old h).standing) }
    ensures feed { OnOk result (feed.new
        ≡ (step E.P.Tag.eq E.P.model (E.standing engine.old) feed.old h).feed) }
    ensures harts { length (E.standing engine.new).machine.core.harts
        ≡ length (E.standing engine.old).machine.core.harts }
    ensures puts { PutsOut (K.taken out.old) (K.taken out.new) (step_pieces breaks.now h
        (step E.P.Tag.eq E.P.model (E.standing engine.old) feed.old h)) result }
    ensures cause { ObeyCause (K.faults out.old) (K.faults out.new) result }
    ensures cut { IfErr result (λ end. TurnCut E.P.Tag.eq E.P.model
        (E.standing engine.old) feed.old h (E.standing engine.new) feed.new
        (K.taken out.old) (K.taken out.new) end) }
{
    let end = engine.turn(h, feed);
    if let TurnEnd::Memory = end {
        return Err(ObeyEnd::Memory);
    }
    let pc = engine.pc(h);
    match tell(breaks, h, pc, end, out) {
        Ok(()) => Ok((end, pc)),
        Err(cause) => Err(cause),
    }
}

/// At most so many turns, in this order, with what each tells put before the next one is made. They end early at a break, where
/// no turn is next, and where the engine runs out of tag numbers. The answer is how many turns were counted: an idle one is not,
/// nor one that ran out of tag numbers.
///
/// After an error nothing more is put, and no further turn is made. Where a put came to nothing, or to less than all of its
/// bytes, the engine and its account stand after the turn that was then told; what was put is all that the turns before it tell,
/// and a prefix of what it tells. Where memory ran out in a turn, the machine stands after the turns before it, all of which were
/// told.
pub fn make_turns<E: Engine, K: Sink>(
    engine: &mut E,
    feed: &mut Feed,
    breaks: &[u32],
    budget: u32,
    order: Order<'_>,
    out: &mut K,
) -> Result<u32, ObeyEnd>
    requires { AreHarts (length (E.standing engine.old).machine.core.harts) (order_of order) }
    ensures made { IfOk result (λ count. Leaves (turns E.P.Tag.eq E.P.model breaks.now
        budget (order_of order.entry) (E.standing engine.old) feed.old)
        (E.standing engine.new) feed.new count) }
    ensures puts { PutsOut (K.taken out.old) (K.taken out.new)
        (turns E.P.Tag.eq E.P.model breaks.now
        budget (order_of order.entry) (E.standing engine.old) feed.old).pieces result }
    ensures cause { ObeyCause (K.faults out.old) (K.faults out.new) result }
    ensures cut { IfErr result (λ end. TurnsCut E.P.Tag.eq E.P.model breaks.now
        budget (order_of order.entry) (E.standing engine.old) feed.old
        (E.standing engine.new) feed.new (K.taken out.old) (K.taken out.new) end) }
    ensures harts { length (E.standing engine.new).machine.core.harts
        ≡ length (E.standing engine.old).machine.core.harts }
{
    let mut order = order;
    let mut count = 0;
    for _ in 0..budget {
        let Some((h, others)) = next_of(order, engine) else {
            break;
        };
        let (end, pc) = make_turn(engine, h, feed, breaks, out)?;
        count += count_of(end);
        if is_last(breaks, pc, end) {
            break;
        }
        order = others;
    }
    Ok(count)
}
