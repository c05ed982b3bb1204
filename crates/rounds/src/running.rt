//! The loop of rounds.

ghost use Rattle.std.specs.Prelude.{◌≡◌, ◌≢◌, ◌<◌, Err, None, Some, IfOk, OnOk, length, true};
ghost use Rattle.host_io.specs.Pieces.{Puts, PutsFirst};
ghost use Rattle.engine_trait.specs.Standing.{is_ready, step};
ghost use Rattle.rounds.specs.Course.{rounds};
ghost use Rattle.rounds.specs.Cuts.{RoundsCause};
ghost use Rattle.rounds.specs.Shown.{pieces_of, shown_by};

use crate::order::{next_after, next_turn, order_of};
use crate::telling::tell;
use engine_trait::{Engine, Feed, Halt, TurnEnd};
use host_io::{PutEnd, Sink};

/// Why rounds were cut short.
#[derive(Clone, Copy, Debug, PartialEq, Eq)]
pub enum RoundsEnd {
    /// A put came to nothing, or to less than all of its bytes.
    Put(PutEnd),
    /// Memory ran out in a turn, and the engine is stopped.
    Engine,
}

/// One turn of a hart that is ready, and what it shows. The answer is how the turn ended.
#[inline(always)]
fn make_turn<E: Engine, K: Sink, L: Sink>(
    engine: &mut E,
    h: u32,
    feed: &mut Feed,
    out: &mut K,
    err: &mut L,
) -> Result<TurnEnd, RoundsEnd>
    requires hart { h < length (E.standing engine.old).machine.core.harts }
    requires ready { is_ready (E.standing engine.old) h ≡ true }
    ensures ended { IfOk result (λ end.
        end ≡ (step E.P.Tag.eq E.P.model (E.standing engine.old) feed.old h).ended) }
    ensures standing { OnOk result (E.standing engine.new
        ≡ (step E.P.Tag.eq E.P.model (E.standing engine.old) feed.old h).standing) }
    ensures harts { OnOk result (length (E.standing engine.new).machine.core.harts
        ≡ length (E.standing engine.old).machine.core.harts) }
    ensures feed { OnOk result (feed.new
        ≡ (step E.P.Tag.eq E.P.model (E.standing engine.old) feed.old h).feed) }
    ensures puts { Puts (record { out = K.taken out.old; err = L.taken err.old })
        (record { out = K.taken out.new; err = L.taken err.new })
        (shown_by h (step E.P.Tag.eq E.P.model (E.standing engine.old) feed.old h).ended) result }
    ensures whole { result ≢ Err (RoundsEnd.Put PutEnd.Failed)
        → PutsFirst (record { out = K.taken out.old; err = L.taken err.old })
        (record { out = K.taken out.new; err = L.taken err.new })
        (shown_by h (step E.P.Tag.eq E.P.model (E.standing engine.old) feed.old h).ended) }
    ensures cause { RoundsCause (record { out = K.faults out.old; err = L.faults err.old })
        (record { out = K.faults out.new; err = L.faults err.new }) result }
    ensures halt { result ≡ Err RoundsEnd.Engine
        → (E.standing engine.new).account.halt ≡ Some Halt.Memory }
    ensures runs_on { (end : PutEnd) → result ≡ Err (RoundsEnd.Put end)
        → (E.standing engine.new).account.halt ≡ None }
{
    // Serves the proof alone: the machine is sound, and so has a place for the hart's stop.
    let _harts = engine.harts();
    let end = engine.ready_turn(h, feed);
    if let TurnEnd::Memory = end {
        return Err(RoundsEnd::Engine);
    }
    match tell(engine, h, end, out, err) {
        Ok(()) => Ok(end),
        Err(cause) => Err(RoundsEnd::Put(cause)),
    }
}

/// Turns of an engine in rounds from hart 0 on, at most `limit`, passing over harts that have
/// stopped. What a turn shows is put before the next turn: the byte that it put out on `out`, the
/// line of its hart's stop on `err`. The rounds end early where no hart is ready and where the
/// engine as a whole is stopped; an engine that is stopped before makes no turn.
///
/// After an error nothing more is put. Where no put failed, each piece was put as a whole or not at
/// all. An engine without memory is stopped for good, and one whose turn was not told runs on.
pub fn make_rounds<E: Engine, K: Sink, L: Sink>(
    limit: u64,
    engine: &mut E,
    feed: &mut Feed,
    out: &mut K,
    err: &mut L,
) -> Result<(), RoundsEnd>
    ensures standing { OnOk result (E.standing engine.new
        ≡ (rounds E.P.Tag.eq E.P.model limit 0 (E.standing engine.old) feed.old).standing) }
    ensures feed { OnOk result (feed.new
        ≡ (rounds E.P.Tag.eq E.P.model limit 0 (E.standing engine.old) feed.old).feed) }
    // What the turns show was put in their order, or after an error a prefix of it.
    ensures puts { Puts (record { out = K.taken out.old; err = L.taken err.old })
        (record { out = K.taken out.new; err = L.taken err.new })
        (pieces_of (rounds E.P.Tag.eq E.P.model limit 0 (E.standing engine.old) feed.old).events)
        result }
    ensures whole { result ≢ Err (RoundsEnd.Put PutEnd.Failed)
        → PutsFirst (record { out = K.taken out.old; err = L.taken err.old })
        (record { out = K.taken out.new; err = L.taken err.new })
        (pieces_of (rounds E.P.Tag.eq E.P.model limit 0 (E.standing engine.old) feed.old).events) }
    ensures cause { RoundsCause (record { out = K.faults out.old; err = L.faults err.old })
        (record { out = K.faults out.new; err = L.faults err.new }) result }
    ensures halt { result ≡ Err RoundsEnd.Engine
        → (E.standing engine.new).account.halt ≡ Some Halt.Memory }
    ensures runs_on { (end : PutEnd) → result ≡ Err (RoundsEnd.Put end)
        → (E.standing engine.new).account.halt ≡ None }
{
    let mut order = order_of(engine);
    let mut next = next_turn(engine, 0);
    for _ in 0..limit {
        let Some(h) = next else {
            break;
        };
        let end = make_turn(engine, h, feed, out, err)?;
        next = next_after(engine, h, end, &mut order);
    }
    Ok(())
}
