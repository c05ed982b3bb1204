//! An input that is read piece by piece, and whose lines a session executes as they come.

ghost use Rattle.std.specs.Prelude.{◌≡◌, ℕ, ◌+◌, [], Err, IfOk, IfSome, IsTrue, None, Ok};
ghost use Rattle.host_io.specs.Prefixes.{LosesPrefix};
ghost use Rattle.shell_lang.specs.Stream.{end_answer, onto_answers};
ghost use Rattle.shell_turns.specs.Cuts.{PutsOut};
ghost use Rattle.shell_script.specs.Scripts.{Ends, script};
ghost use Rattle.shell_script.specs.Shell.{RepliesSoFar, ShellCause, ShellEnds, at_the_end, shell_of};

use crate::lines::{obey_bytes, obey_rest};
use engine_trait::Loader;
use host_io::{Failed, Sink, Source};
use shell_lang::Lines;
use shell_run::{ObeyEnd, Session};

/// How a session over an input ended.
#[derive(Clone, Copy, Debug, PartialEq, Eq)]
pub enum ShellEnd {
    /// With the command `quit`.
    Quit,
    /// At the end of the input.
    InputEnd,
    /// The input gives more bytes than the limit.
    TooLong,
}

/// Why a session over an input was cut short.
#[derive(Clone, Copy, Debug, PartialEq, Eq)]
pub enum ShellCut {
    /// A read of the input failed.
    ReadFailed,
    /// The session ended before its commands did.
    Obey(ObeyEnd),
}

/// How many bytes one read may give.
const PIECE_LEN: usize = 4096;

/// Obeys the last line of an input that has ended.
#[tactic(auto, using(shell_turns::proofs::PutLemmas::puts_with, shell_turns::proofs::PutLemmas::puts_cut_with))]
fn finish<L: Loader, K: Sink>(
    session: &mut Session<L>,
    lines: &mut Lines,
    out: &mut K,
) -> Result<ShellEnd, ShellCut>
    requires { session.old.ended ≡ None }
    ensures done { IfOk result (λ end. ShellEnds (at_the_end (script L.E.P.Tag.eq L.E.P.model
        session.old (onto_answers (end_answer lines.old) []))) session.new end) }
    ensures puts { PutsOut (K.taken out.old) (K.taken out.new) (script L.E.P.Tag.eq L.E.P.model
        session.old (onto_answers (end_answer lines.old) [])).pieces result }
    ensures cause { (input : ℕ) → ShellCause
        (record { input = input; out = K.faults out.old })
        (record { input = input; out = K.faults out.new }) result }
{
    match obey_rest(session, lines, out) {
        Ok(true) => Ok(ShellEnd::Quit),
        Ok(false) => Ok(ShellEnd::InputEnd),
        Err(end) => Err(ShellCut::Obey(end)),
    }
}

/// Obeys the lines of an input as their newlines come, up to `quit` or to the end of the input, which ends a last line that was
/// begun. Of an input of more than `limit` bytes those lines are executed that end within them.
#[tactic(auto, using(host_io::proofs::ReadingLemmas::two_prefixes))]
pub fn obey_input<L: Loader, S: Source, K: Sink>(
    session: &mut Session<L>,
    input: &mut S,
    limit: usize,
    out: &mut K,
) -> Result<ShellEnd, ShellCut>
    requires { session.old.ended ≡ None }

    // Where the input tells its bytes, the session and its replies are those of the definition.
    ensures done { IfOk result (λ end. IfSome (S.left input.old) (λ bytes.
        ShellEnds (shell_of L.E.P.Tag.eq L.E.P.model limit session.old bytes) session.new end)) }
    ensures puts { IfSome (S.left input.old) (λ bytes. PutsOut (K.taken out.old) (K.taken out.new)
        (shell_of L.E.P.Tag.eq L.E.P.model limit session.old bytes).pieces result) }

    // Where a read failed, each line that ended before it was replied to, and nothing else was put.
    ensures replied { result ≡ Err ShellCut.ReadFailed
        → RepliesSoFar L.E.P.Tag.eq L.E.P.model limit session.old
        (S.left input.old) (S.left input.new) (K.taken out.old) (K.taken out.new) }

    // What was moved out of the input stood first, and it is closed where its end was met.
    ensures closed { result ≡ Ok ShellEnd.InputEnd → IsTrue (S.closed input.new) }
    ensures moved { LosesPrefix (S.left input.old) (S.left input.new) (limit + 4096) }
    ensures cause { ShellCause
        (record { input = S.faults input.old; out = K.faults out.old })
        (record { input = S.faults input.new; out = K.faults out.new }) result }
{
    let mut lines = Lines::new();
    let mut room = limit;
    let mut piece = [0; PIECE_LEN];
    loop {
        let count = match input.read(&mut piece) {
            Ok(0) => return finish(session, &mut lines, out),
            Ok(count) => count,
            Err(Failed) => return Err(ShellCut::ReadFailed),
        };
        match obey_bytes(session, &mut lines, &piece[..count.min(room)], out) {
            Ok(true) => return Ok(ShellEnd::Quit),
            Ok(false) => {}
            Err(end) => return Err(ShellCut::Obey(end)),
        }
        if count > room {
            return Ok(ShellEnd::TooLong);
        }
        room -= count;
    }
}
