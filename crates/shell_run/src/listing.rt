//! Listings: so many lines of one kind.

ghost use Rattle.std.specs.Prelude.{◌+◌, ◌/◌, ◌≤◌, ◌∷◌, []};
ghost use Rattle.host_io.specs.Pieces.{out as piece};
ghost use Rattle.tag_memory.specs.Ram.{ram_bytes};
ghost use Rattle.shell_turns.specs.Cuts.{ObeyCause, PutsOut};
ghost use Rattle.shell_run.specs.Listings.{AreThere, line_of};
ghost use Rattle.shell_run.specs.Shown.{blocks, lines_from};

use crate::texts::{put_block, put_register, put_statement, put_tag, put_word};
use engine_trait::Engine;
use host_io::Sink;
use policy_trait::Policy;
use shell_turns::ObeyEnd;

/// What is listed.
#[derive(Clone, Copy)]
pub(crate) enum Listing {
    /// The registers of a hart.
    Registers(u32),
    /// The words of memory from an address on.
    Words(u32),
    /// The tags of these words.
    Tags(u32),
    /// These words, each with its statement of assembler source.
    Statements(u32),
}

/// Puts line `k` of a listing.
fn put_listed<E: Engine, K: Sink>(
    engine: &E,
    listing: Listing,
    k: u32,
    out: &mut K,
) -> Result<(), ObeyEnd>
    requires there { AreThere (E.standing engine.now).machine.core listing (k + 1) }
    requires longest { E.P.longest ≤ 460 }
    ensures puts { PutsOut (K.taken out.old) (K.taken out.new)
        (piece (line_of E.P.model (E.standing engine.now).machine listing k) ∷ []) result }
    ensures cause { ObeyCause (K.faults out.old) (K.faults out.new) result }
{
    let _bytes = engine.ram(); // for the proof: no address passes the last word
    match listing {
        Listing::Registers(h) => {
            let tag = engine.reg_tag(h, k);
            put_register(k, engine.reg(h, k), engine.policy(), tag, out)
        }
        Listing::Words(base) => {
            let address = base + 4 * k;
            put_word(address, engine.word(address), out)
        }
        Listing::Tags(base) => {
            let address = base + 4 * k;
            put_tag(address, engine.policy(), engine.word_tag(address), out)
        }
        Listing::Statements(base) => {
            let address = base + 4 * k;
            put_statement(address, engine.word(address), out)
        }
    }
}

/// Puts the first so many lines of a listing.
pub(crate) fn put_listing<E: Engine, K: Sink>(
    engine: &E,
    listing: Listing,
    count: u32,
    out: &mut K,
) -> Result<(), ObeyEnd>
    requires there { AreThere (E.standing engine.now).machine.core listing count }
    requires longest { E.P.longest ≤ 460 }
    ensures puts { PutsOut (K.taken out.old) (K.taken out.new)
        (lines_from (line_of E.P.model (E.standing engine.now).machine listing) 0 count) result }
    ensures cause { ObeyCause (K.faults out.old) (K.faults out.new) result }
{
    for k in 0..count {
        put_listed(engine, listing, k, out)?;
    }
    Ok(())
}

/// Puts the live blocks of the heap in the order of their numbers, at most as many as memory has words.
pub(crate) fn put_blocks<E: Engine, K: Sink>(engine: &E, out: &mut K) -> Result<(), ObeyEnd>
    ensures puts { PutsOut (K.taken out.old) (K.taken out.new)
        (blocks E.P.model (E.standing engine.now).machine 0
        (ram_bytes (E.standing engine.now).machine.core.ram / 4)) result }
    ensures cause { ObeyCause (K.faults out.old) (K.faults out.new) result }
{
    for place in 0..engine.ram() / 4 {
        let Some(block) = engine.policy().listed(place) else {
            break;
        };
        put_block(block, out)?;
    }
    Ok(())
}
