//! `asm` and `migrate`: an image that is made of a file, and its own file, saved.

ghost use Rattle.std.specs.Prelude.{◌≡◌, ◌≢◌, ℕ, List, Ok, Err, IfErr, IfOk, IfSome, OnOk};
ghost use Rattle.std.specs.Bool.{then_some};
ghost use Rattle.shared_terms.specs.Counts.{next_count};
ghost use Rattle.image_format.specs.Migrated.{migrated};
ghost use Rattle.image_format.specs.Spelling.{spelling};
ghost use Rattle.pump_line.specs.Task.{save};
ghost use Rattle.pump_line.specs.Told.{save_value};
ghost use Rattle.pump_cli.specs.Early.{IsOfFile, ReadRoseBy, WriteRoseBy};
ghost use Rattle.pump_cli.specs.Environments.{environment};
ghost use Rattle.pump_cli.specs.Facts.{AtMost, status_in};
ghost use Rattle.pump_cli.specs.Reading.{made_read};
ghost use Rattle.pump_cli.specs.Theorem.{HeadlineOf};

use crate::cut::Cut;
use crate::reading::{EarlyEnd, load_image, load_source};
use crate::refusal::{Refusal, end_early};
use crate::status::Status;
use host_io::{Files, Sink, Source};
use image_format::{Image, write_image};
use pump_line::{Making, SaveTask};
use std::alloc::Global;

/// Saves the file of an image under this name.
pub(crate) fn save_image<F: Files>(
    alloc: Global,
    files: &mut F,
    name: &str,
    image: &Image,
) -> Result<Status, Cut>
    ensures file { OnOk result
        (F.held files.new name.now ≡ then_some F.tells (spelling image.now)) }
    ensures others { (other : List ℕ) → other ≢ name.now
        → F.held files.new other ≡ F.held files.old other }
    ensures memory { result ≡ Err Cut.Memory → F.held files.new ≡ F.held files.old }
    ensures done { IfOk result (λ status. status ≡ Status.Done) }
    ensures faults { WriteRoseBy (F.write_faults files.old) (F.write_faults files.new)
        name.now result }
    ensures reads { F.read_faults files.new ≡ F.read_faults files.old }
    ensures calls { result ≢ Err Cut.Memory
        → F.calls files.new ≡ next_count (F.calls files.old) }
    ensures at_most { AtMost 1 (F.calls files.old) (F.calls files.new) }
{
    let bytes = write_image(alloc, image)?;
    files.save(alloc, name, &bytes)?;
    Ok(Status::Done)
}

/// The image as one of version 2.
fn migrated(alloc: Global, image: Image) -> Result<Image, EarlyEnd>
    ensures made { IfOk result (λ made. made ≡ migrated image) }
    ensures cut { IfErr result (λ end. end ≡ EarlyEnd.Cut Cut.Memory) }
{
    match image.migrate(alloc) {
        Ok(image) => Ok(image),
        Err(_) => Err(EarlyEnd::Cut(Cut::Memory)),
    }
}

/// The image that is made so of the file of this name.
fn load_made<F: Files>(
    alloc: Global,
    files: &mut F,
    making: Making,
    name: &str,
) -> Result<Image, EarlyEnd>
    ensures taken { IfOk result (λ image. IfSome (F.held files.old name.now) (λ bytes.
        made_read making bytes ≡ Ok image)) }
    ensures refused { (refusal : Refusal) → result ≡ Err (EarlyEnd.Refused refusal) →
        IfSome (F.held files.old name.now) (λ bytes. made_read making bytes ≡ Err refusal) }
    ensures of_file { (refusal : Refusal) → result ≡ Err (EarlyEnd.Refused refusal) →
        IsOfFile refusal }
    ensures faults { ReadRoseBy (F.read_faults files.old) (F.read_faults files.new)
        name.now result }
    ensures writes { F.write_faults files.new ≡ F.write_faults files.old }
    ensures calls { F.calls files.new ≡ next_count (F.calls files.old) }
    ensures held { F.held files.new ≡ F.held files.old }
{
    match making {
        Making::Assemble => load_source(alloc, files, name),
        Making::Migrate => match load_image(alloc, files, name) {
            Ok(image) => migrated(alloc, image),
            Err(end) => Err(end),
        },
    }
}

/// Loads the file that an image is made of, and saves the file of that image.
pub(crate) fn save_task<F: Files, S: Source, K: Sink, L: Sink>(
    alloc: Global,
    task: SaveTask<'_>,
    files: &mut F,
    input: &mut S,
    out: &mut K,
    err: &mut L,
) -> Result<Status, Cut>
    ensures { HeadlineOf (save (save_value task.entry)) (status_in result)
        (environment F.tells F.held F.read_faults F.write_faults F.calls S.left S.closed S.faults
        K.taken K.faults L.taken L.faults files.old input.old out.old err.old)
        (environment F.tells F.held F.read_faults F.write_faults F.calls S.left S.closed S.faults
        K.taken K.faults L.taken L.faults files.new input.new out.new err.new) }
{
    match load_made(alloc, files, task.making, task.source) {
        Ok(image) => save_image(alloc, files, task.image, &image),
        Err(end) => end_early(err, end),
    }
}
