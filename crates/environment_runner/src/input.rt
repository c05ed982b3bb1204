//! The input, put piece by piece as it is read.

ghost use Rattle.std.specs.Prelude.{IfSome, IsTrue, OnOk};
ghost use Rattle.host_io.specs.Prefixes.{TakesAll};

use crate::stops::Stop;
use host_io::{Failed, Sink, Source};

/// How many bytes one read may give: few, so that the input comes in many pieces.
const PIECE_LEN: usize = 7;

/// Puts what the source gives, piece by piece up to its end.
pub(crate) fn echo<S: Source, K: Sink>(source: &mut S, out: &mut K) -> Result<(), Stop>
    // All that was left was put, and the end was met.
    ensures echoed { OnOk result (IfSome (S.left source.old)
        (λ all. TakesAll (K.taken out.old) (K.taken out.new) all)) }
    ensures closed { OnOk result (IsTrue (S.closed source.new)) }
{
    let mut piece = [0; PIECE_LEN];
    for _ in 0..u64::MAX {
        match source.read(&mut piece) {
            Ok(0) => return Ok(()),
            Ok(count) => out.put(&piece[..count])?,
            Err(Failed) => return Err(Stop::Input),
        }
    }
    Err(Stop::Input)
}
