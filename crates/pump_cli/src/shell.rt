//! `shell`: a session of the monitor shell over an image.

ghost use Rattle.std.specs.Prelude.{◌≡◌, ℕ, List, Option, ◌+◌, ◌≤◌, Err, IfOk, IfSome, IsTrue, Ok, OnOk, true};
ghost use Rattle.cache_size.specs.Sizes.{IsCacheSize};
ghost use Rattle.host_io.specs.Prefixes.{LosesPrefix};
ghost use Rattle.pump_shell.specs.Told.{told_of};
ghost use Rattle.pump_line.specs.Task.{shell};
ghost use Rattle.pump_line.specs.Told.{shell_value};
ghost use Rattle.pump_cli.specs.Codes.{IsOfSession};
ghost use Rattle.pump_cli.specs.Early.{SessionFaultBy};
ghost use Rattle.pump_cli.specs.Environments.{environment};
ghost use Rattle.pump_cli.specs.Facts.{Does, IsLongInput, PutsFaultBy, RepliedBefore, status_in};
ghost use Rattle.pump_cli.specs.Program.{is_over_at_start, outcome_of_end, outcome_of_lines, outcome_of_no_start, setup_of};
ghost use Rattle.pump_cli.specs.Reading.{input_limit};
ghost use Rattle.pump_cli.specs.Runs.{whole_of_shell};
ghost use Rattle.pump_cli.specs.Theorem.{HeadlineOf};

use crate::basis::basis_of;
use crate::cut::Cut;
use crate::ending::end_at_start;
use crate::reading::{INPUT_LIMIT, load_image, load_secret};
use crate::refusal::{Refusal, end_early, refuse};
use crate::status::Status;
use host_io::{Files, Sink, Source};
use image_format::Image;
use pump_line::ShellTask;
use pump_shell::{SessionEnd, Setup, run_session};
use std::alloc::Global;

/// Tells how a session ended, where that isn't by `quit` or with the input.
fn end_session<L: Sink>(err: &mut L, end: SessionEnd) -> Result<Status, Cut>
    ensures does { (out : Option (List ℕ)) → Does (outcome_of_end end)
        (record { out = out; err = L.taken err.old })
        (record { out = out; err = L.taken err.new }) result }
    ensures faults { (out : ℕ) → PutsFaultBy
        (record { out = out; err = L.faults err.old })
        (record { out = out; err = L.faults err.new }) result }
    ensures kind { IfOk result IsOfSession }
    ensures long { result ≡ Ok Status.TooLong → end ≡ SessionEnd.TooLong }
    ensures tags_out { result ≡ Ok Status.TagsOut → end ≡ SessionEnd.TagsOut }
{
    match end {
        SessionEnd::Quit | SessionEnd::InputEnd => Ok(Status::Done),
        SessionEnd::TooLong => refuse(err, Refusal::TooLong),
        SessionEnd::TagsOut => end_at_start(err),
    }
}

/// Obeys the lines of the input over an image, and tells how that ended.
#[tactic(auto, unfolding(crate::specs::Reading::input_limit))]
pub(crate) fn obey_lines<S: Source, K: Sink, L: Sink>(
    alloc: Global,
    task: ShellTask<'_>,
    image: &Image,
    secret: &[u8],
    input: &mut S,
    out: &mut K,
    err: &mut L,
) -> Result<Status, Cut>
    requires rules { IsCacheSize task.cache }
    requires tags { 1 ≤ task.tags }
    requires history { task.history ≤ 65536 }
    ensures does { IfSome (S.left input.old) (λ bytes. Does
        (outcome_of_lines (shell_value task.entry) secret.now image.now bytes)
        (record { out = K.taken out.old; err = L.taken err.old })
        (record { out = K.taken out.new; err = L.taken err.new }) result) }
    ensures faults { SessionFaultBy (S.faults input.old) (S.faults input.new)
        (record { out = K.faults out.old; err = L.faults err.old })
        (record { out = K.faults out.new; err = L.faults err.new }) result }
    ensures kind { IfOk result IsOfSession }
    ensures long { result ≡ Ok Status.TooLong → IfSome (S.left input.old) IsLongInput }
    // A start that is out of tag numbers, whatever the input is.
    ensures tags_out { result ≡ Ok Status.TagsOut
        → is_over_at_start (shell_value task.entry) secret.now image.now ≡ true }
    ensures no_start { is_over_at_start (shell_value task.entry) secret.now image.now ≡ true
        → Does outcome_of_no_start
        (record { out = K.taken out.old; err = L.taken err.old })
        (record { out = K.taken out.new; err = L.taken err.new }) result }
    ensures unread { is_over_at_start (shell_value task.entry) secret.now image.now ≡ true
        → input.new ≡ input.old }
    // A session that ended with its input has read it to its end.
    ensures closed { OnOk result (IfSome (S.left input.old) (λ bytes.
        (told_of (setup_of (shell_value task.entry)) secret.now image.now input_limit bytes).end
        ≡ SessionEnd.InputEnd → IsTrue (S.closed input.new))) }
    ensures moved { LosesPrefix (S.left input.old) (S.left input.new) (input_limit + 4096) }
    // Where a read failed, each line that ended before it was replied to, and nothing else was put.
    ensures replied { result ≡ Err Cut.InputFailed
        → RepliedBefore (whole_of_shell (shell_value task.entry) secret.now image.now)
        (shell_value task.entry) image.now (S.left input.old) (S.left input.new)
        (record { out = K.taken out.old; err = L.taken err.old })
        (record { out = K.taken out.new; err = L.taken err.new }) }
{
    let setup = Setup {
        basis: basis_of(task.choice),
        cache: task.cache,
        tags: task.tags,
        history: task.history,
    };
    match run_session(alloc, setup, secret, image, input, INPUT_LIMIT, out) {
        Ok(end) => end_session(err, end),
        Err(cut) => Err(Cut::from(cut)),
    }
}

/// Loads the image, and the secret bytes where secrecy is chosen, and executes the input's lines over it.
pub(crate) fn shell_task<F: Files, S: Source, K: Sink, L: Sink>(
    alloc: Global,
    task: ShellTask<'_>,
    files: &mut F,
    input: &mut S,
    out: &mut K,
    err: &mut L,
) -> Result<Status, Cut>
    requires rules { IsCacheSize task.cache }
    requires tags { 1 ≤ task.tags }
    requires history { task.history ≤ 65536 }
    ensures { HeadlineOf (shell (shell_value task.entry)) (status_in result)
        (environment F.tells F.held F.read_faults F.write_faults F.calls S.left S.closed S.faults
        K.taken K.faults L.taken L.faults files.old input.old out.old err.old)
        (environment F.tells F.held F.read_faults F.write_faults F.calls S.left S.closed S.faults
        K.taken K.faults L.taken L.faults files.new input.new out.new err.new) }
{
    let image = match load_image(alloc, files, task.image) {
        Ok(image) => image,
        Err(end) => return end_early(err, end),
    };
    let secret = match load_secret(alloc, files, task.choice, task.secret) {
        Ok(secret) => secret,
        Err(end) => return end_early(err, end),
    };
    obey_lines(alloc, task, &image, &secret, input, out, err)
}
