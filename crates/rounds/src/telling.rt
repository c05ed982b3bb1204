//! What a turn shows.

ghost use Rattle.std.specs.Prelude.{◌≡◌, ◌≢◌, ◌<◌, [], ◌∷◌, true, Err, OnErr, OnOk, Some, length};
ghost use Rattle.host_io.specs.Causes.{PutCause};
ghost use Rattle.host_io.specs.Prefixes.{TakesAll, TakesPrefix};
ghost use Rattle.host_io.specs.Pieces.{Puts, PutsFirst};
ghost use Rattle.host_io.specs.TwoSinks.{PutsCause};
ghost use Rattle.engine_trait.specs.EngineLaws.{is_made};
ghost use Rattle.engine_trait.specs.Machine.{stop_at};
ghost use Rattle.tag_text.specs.Texts.{stop_line};
ghost use Rattle.rounds.specs.Shown.{shown_by};

use engine_trait::{Engine, Stop, TurnEnd};
use host_io::{PutEnd, Sink};
use pump_words::Line;
use tag_text::write_stop_line;

/// Tells what a turn of hart `h` that ended so shows. The stop is the one that the engine has for the hart since then: the turn's end
/// has it too, but is read nowhere else, so that no turn has to carry it.
#[inline(always)]
pub(crate) fn tell<E: Engine, K: Sink, L: Sink>(
    engine: &E,
    h: u32,
    end: TurnEnd,
    out: &mut K,
    err: &mut L,
) -> Result<(), PutEnd>
    requires hart { h < length (E.standing engine.now).machine.core.harts }
    requires stop { (why : Stop) → end ≡ TurnEnd.Stopped why
        → stop_at (E.standing engine.now).machine.core h ≡ Some why }
    ensures puts { Puts (record { out = K.taken out.old; err = L.taken err.old })
        (record { out = K.taken out.new; err = L.taken err.new }) (shown_by h end) result }
    ensures whole { result ≢ Err PutEnd.Failed
        → PutsFirst (record { out = K.taken out.old; err = L.taken err.old })
        (record { out = K.taken out.new; err = L.taken err.new }) (shown_by h end) }
    // Only a turn that was made shows something.
    ensures made { OnErr result (is_made end ≡ true) }
    ensures cause { PutsCause (record { out = K.faults out.old; err = L.faults err.old })
        (record { out = K.faults out.new; err = L.faults err.new }) result }
{
    match end {
        TurnEnd::Ran(Some(byte)) => put_byte(byte, out),
        TurnEnd::Stopped(_) => match engine.stop(h) {
            Some(why) => put_stop(h, why, err),
            None => Ok(()),
        },
        _ => Ok(()),
    }
}

/// Puts a byte. It stays a call, since few turns put one, and its place in memory would be cleared at every turn.
#[inline(never)]
fn put_byte<K: Sink>(byte: u8, sink: &mut K) -> Result<(), PutEnd>
    ensures ok { OnOk result (TakesAll (K.taken sink.old) (K.taken sink.new) (byte ∷ [])) }
    ensures failed { result ≡ Err PutEnd.Failed
        → TakesPrefix (K.taken sink.old) (K.taken sink.new) (byte ∷ []) }
    ensures memory { result ≡ Err PutEnd.Memory → K.taken sink.new ≡ K.taken sink.old }
    ensures cause { PutCause (K.faults sink.old) (K.faults sink.new) result }
{
    sink.put(&[byte])
}

/// Puts the line of the stop of hart `h` on a sink. It stays a call, since few turns stop a hart, and the room of the line
/// would be cleared at every turn.
#[inline(never)]
pub fn put_stop<K: Sink>(h: u32, why: Stop, sink: &mut K) -> Result<(), PutEnd>
    ensures ok { OnOk result (TakesAll (K.taken sink.old) (K.taken sink.new) (stop_line h why)) }
    ensures failed { result ≡ Err PutEnd.Failed
        → TakesPrefix (K.taken sink.old) (K.taken sink.new) (stop_line h why) }
    ensures memory { result ≡ Err PutEnd.Memory → K.taken sink.new ≡ K.taken sink.old }
    ensures cause { PutCause (K.faults sink.old) (K.faults sink.new) result }
{
    let mut line = Line::new();
    write_stop_line(&mut line, h, why);
    sink.put(&line)
}
