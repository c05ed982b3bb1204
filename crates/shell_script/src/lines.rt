//! Lines that a session executes one after another.

ghost use Rattle.std.specs.Prelude.{◌≡◌, [], IfOk, None, OnOk, false};
ghost use Rattle.shell_lang.specs.Stream.{answers_along, end_answer, line_along, onto_answers};
ghost use Rattle.shell_turns.specs.Cuts.{ObeyCause, PutsOut};
ghost use Rattle.shell_script.specs.Scripts.{Ends, script_of_answer, script};

use engine_trait::Loader;
use host_io::Sink;
use shell_lang::{BadCommand, Command, Lines};
use shell_run::{ObeyEnd, Session, put_refusal};

/// Obeys what a line asks for, or tells why it is refused. The answer is whether the session ends with it.
fn obey_line<L: Loader, K: Sink>(
    session: &mut Session<L>,
    line: &Result<Command, BadCommand>,
    out: &mut K,
) -> Result<bool, ObeyEnd>
    requires { session.old.ended ≡ None }
    ensures done { IfOk result (λ quits.
        Ends (script_of_answer L.E.P.Tag.eq L.E.P.model session.old line.now) session.new quits) }
    ensures puts { PutsOut (K.taken out.old) (K.taken out.new)
        (script_of_answer L.E.P.Tag.eq L.E.P.model session.old line.now).pieces result }
    ensures cause { ObeyCause (K.faults out.old) (K.faults out.new) result }
    ensures goes_on { OnOk result (session.new.ended ≡ None) }
{
    match line {
        Ok(command) => session.obey(command, out),
        Err(refusal) => {
            put_refusal(refusal.number(), out)?;
            Ok(false)
        }
    }
}

/// Obeys the line that an answer is of, if there is one.
fn obey_answer<L: Loader, K: Sink>(
    session: &mut Session<L>,
    answer: &Option<Result<Command, BadCommand>>,
    out: &mut K,
) -> Result<bool, ObeyEnd>
    requires { session.old.ended ≡ None }
    ensures done { IfOk result (λ quits. Ends (script L.E.P.Tag.eq L.E.P.model session.old
        (onto_answers answer.now [])) session.new quits) }
    ensures puts { PutsOut (K.taken out.old) (K.taken out.new)
        (script L.E.P.Tag.eq L.E.P.model session.old (onto_answers answer.now [])).pieces result }
    ensures cause { ObeyCause (K.faults out.old) (K.faults out.new) result }
    ensures goes_on { OnOk result (session.new.ended ≡ None) }
{
    match answer {
        None => Ok(false),
        Some(line) => obey_line(session, line, out),
    }
}

/// Obeys the lines that end within these bytes of a stream, each as its newline comes; what stands behind the last newline
/// waits for more bytes. The answer is whether the session ended with `quit`, after which no more is executed.
pub fn obey_bytes<L: Loader, K: Sink>(
    session: &mut Session<L>,
    lines: &mut Lines,
    bytes: &[u8],
    out: &mut K,
) -> Result<bool, ObeyEnd>
    requires { session.old.ended ≡ None }
    ensures done { IfOk result (λ quits. Ends (script L.E.P.Tag.eq L.E.P.model session.old
        (answers_along lines.old bytes.now)) session.new quits) }
    ensures lines { IfOk result (λ quits. quits ≡ false
        → lines.new ≡ line_along lines.old bytes.now) }
    ensures puts { PutsOut (K.taken out.old) (K.taken out.new)
        (script L.E.P.Tag.eq L.E.P.model session.old (answers_along lines.old bytes.now)).pieces
        result }
    ensures cause { ObeyCause (K.faults out.old) (K.faults out.new) result }
    ensures goes_on { OnOk result (session.new.ended ≡ None) }
{
    for byte in bytes {
        if obey_answer(session, &lines.push(*byte), out)? {
            return Ok(true);
        }
    }
    Ok(false)
}

/// Obeys the last line of a stream that has ended, if one was begun.
pub fn obey_rest<L: Loader, K: Sink>(
    session: &mut Session<L>,
    lines: &mut Lines,
    out: &mut K,
) -> Result<bool, ObeyEnd>
    requires { session.old.ended ≡ None }
    ensures done { IfOk result (λ quits. Ends (script L.E.P.Tag.eq L.E.P.model session.old
        (onto_answers (end_answer lines.old) [])) session.new quits) }
    ensures puts { PutsOut (K.taken out.old) (K.taken out.new) (script L.E.P.Tag.eq L.E.P.model
        session.old (onto_answers (end_answer lines.old) [])).pieces result }
    ensures cause { ObeyCause (K.faults out.old) (K.faults out.new) result }
    ensures goes_on { OnOk result (session.new.ended ≡ None) }
{
    obey_answer(session, &lines.finish(), out)
}
