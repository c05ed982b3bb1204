//! `dis`: the words of an image, listed.

ghost use Rattle.std.specs.Prelude.{◌≡◌, ℕ, List, Option, IfOk};
ghost use Rattle.pump_line.specs.Task.{disassemble};
ghost use Rattle.pump_line.specs.Told.{disassemble_value};
ghost use Rattle.pump_cli.specs.Environments.{environment};
ghost use Rattle.pump_cli.specs.Facts.{Does, PutsFaultBy, status_in};
ghost use Rattle.pump_cli.specs.Program.{outcome_of_listing};
ghost use Rattle.pump_cli.specs.Theorem.{HeadlineOf};

use crate::cut::Cut;
use crate::reading::load_image;
use crate::refusal::end_early;
use crate::status::Status;
use host_io::{Files, Sink, Source};
use image_format::Image;
use image_listing::list_image;
use pump_line::DisassembleTask;
use std::alloc::Global;

/// Lists the words of an image on standard output.
#[tactic(auto, unfolding(crate::specs::Program::outcome_of_listing))]
fn list_words<K: Sink>(image: &Image, out: &mut K) -> Result<Status, Cut>
    ensures does { (err : Option (List ℕ)) → Does (outcome_of_listing image.now)
        (record { out = K.taken out.old; err = err })
        (record { out = K.taken out.new; err = err }) result }
    ensures faults { (err : ℕ) → PutsFaultBy
        (record { out = K.faults out.old; err = err })
        (record { out = K.faults out.new; err = err }) result }
    ensures done { IfOk result (λ status. status ≡ Status.Done) }
{
    match list_image(image, out) {
        Ok(()) => Ok(Status::Done),
        Err(end) => Err(Cut::from(end)),
    }
}

/// Loads the image, and lists its words.
pub(crate) fn disassemble_task<F: Files, S: Source, K: Sink, L: Sink>(
    alloc: Global,
    task: DisassembleTask<'_>,
    files: &mut F,
    input: &mut S,
    out: &mut K,
    err: &mut L,
) -> Result<Status, Cut>
    ensures { HeadlineOf (disassemble (disassemble_value task.entry)) (status_in result)
        (environment F.tells F.held F.read_faults F.write_faults F.calls S.left S.closed S.faults
        K.taken K.faults L.taken L.faults files.old input.old out.old err.old)
        (environment F.tells F.held F.read_faults F.write_faults F.calls S.left S.closed S.faults
        K.taken K.faults L.taken L.faults files.new input.new out.new err.new) }
{
    match load_image(alloc, files, task.image) {
        Ok(image) => list_words(&image, out),
        Err(end) => end_early(err, end),
    }
}
