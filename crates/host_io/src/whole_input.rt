//! An input that is read to its end.

ghost use Rattle.std.specs.Prelude.{◌≡◌, ◌+◌, ◌<◌, ◌≤◌, length, vec_len, IsTrue, Err, IfOk, IfSome, OnOk, OnErr};
ghost use Rattle.std.specs.Io.KnownBytes.{IsAtEnd};
ghost use Rattle.host_io.specs.Prefixes.{LosesPrefix};
ghost use Rattle.host_io.specs.Causes.{ReadToEndCause};

use crate::{Failed, Source};
use std::alloc::Global;

/// Why an input was not read to its end.
#[derive(Clone, Copy, Debug, PartialEq, Eq)]
pub enum ReadEnd {
    /// A read failed.
    Failed,
    /// The input gives more bytes than the limit.
    TooLong,
    /// Memory ran out.
    Memory,
}

// How many bytes one read may give.
const PIECE_LEN: usize = 4096;

/// The bytes that are left of the source up to its end, which are at most `limit`. The source is
/// then closed.
///
/// After an error the source is as open as it was, and has lost some of its first bytes, at most
/// 4,096 more than `limit`.
#[tactic(auto, using(crate::proofs::ReadingLemmas::two_prefixes))]
pub fn read_to_end<S: Source>(
    alloc: Global,
    source: &mut S,
    limit: usize,
) -> Result<Vec<u8>, ReadEnd>
    // All that was left, up to the end, which was met.
    ensures ok { IfOk result (λ bytes. IfSome (S.left source.old) (λ all. bytes.items ≡ all)) }
    ensures within { IfOk result (λ bytes. vec_len bytes ≤ limit) }
    ensures closed { OnOk result (IsTrue (S.closed source.new)) }
    ensures end { OnOk result (IsAtEnd (S.left source.new)) }

    // More than the limit was left.
    ensures too_long { result ≡ Err ReadEnd.TooLong →
        IfSome (S.left source.old) (λ all. limit < length all) }

    // What was moved out stood first. An error does not close the source.
    ensures moved { LosesPrefix (S.left source.old) (S.left source.new) (limit + 4096) }
    ensures stays { OnErr result (S.closed source.new ≡ S.closed source.old) }
    ensures cause { ReadToEndCause (S.faults source.old) (S.faults source.new) result }
{
    let mut bytes = Vec::new(alloc);
    let mut piece = [0; PIECE_LEN];
    loop {
        let count = match source.read(&mut piece) {
            Ok(0) => return Ok(bytes),
            Ok(count) => count,
            Err(Failed) => return Err(ReadEnd::Failed),
        };
        if count > limit - bytes.len() {
            return Err(ReadEnd::TooLong);
        }
        if bytes.extend_from_slice(&piece[..count]).is_err() {
            return Err(ReadEnd::Memory);
        }
    }
}
