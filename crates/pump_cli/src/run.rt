//! `run`: an image, run on the whole input.

ghost use Rattle.std.specs.Prelude.{◌≤◌, IfOk};
ghost use Rattle.cache_size.specs.Sizes.{IsCacheSize};
ghost use Rattle.turn_steps.specs.Feeds.{tape_of};
ghost use Rattle.rounds.specs.Course.{rounds};
ghost use Rattle.pump_line.specs.Task.{run};
ghost use Rattle.pump_line.specs.Told.{run_value};
ghost use Rattle.pump_cli.specs.Codes.{IsOfRun};
ghost use Rattle.pump_cli.specs.Endings.{outcome_of_course};
ghost use Rattle.pump_cli.specs.Environments.{environment};
ghost use Rattle.pump_cli.specs.Facts.{Does, PutsFaultBy, status_in};
ghost use Rattle.pump_cli.specs.Program.{basis_of, course_by, outcome_of_run, standing_at_start};
ghost use Rattle.pump_cli.specs.Theorem.{HeadlineOf};

use crate::basis::basis_of;
use crate::cut::Cut;
use crate::ending::{end_at_start, run_engine};
use crate::reading::{load_image, load_secret, read_input};
use crate::refusal::end_early;
use crate::status::Status;
use engine_trait::{Feed, LoadEnd, Loader};
use host_io::{Files, Sink, Source};
use image_format::Image;
use policy_choice::All;
use pump_line::RunTask;
use pump_loader::{BareLoad, ChosenLoad, Hidden, Whole, chosen_load};
use std::alloc::Global;

/// Runs what a loader starts, on these bytes of input; a start that needs too many tag numbers makes no turn. It stays a call,
/// so that each kind of engine has a loop of its own.
#[inline(never)]
fn run_load<D: Loader, K: Sink, L: Sink>(
    turns: u64,
    loader: &D,
    fed: Vec<u8>,
    out: &mut K,
    err: &mut L,
) -> Result<Status, Cut>
    ensures does { Does (outcome_of_course
        (rounds D.E.P.Tag.eq D.E.P.model turns 0 (standing_at_start (D.start loader.now))
        (tape_of fed.items)))
        (record { out = K.taken out.old; err = L.taken err.old })
        (record { out = K.taken out.new; err = L.taken err.new }) result }
    ensures faults { PutsFaultBy
        (record { out = K.faults out.old; err = L.faults err.old })
        (record { out = K.faults out.new; err = L.faults err.new }) result }
    ensures kind { IfOk result IsOfRun }
{
    let mut engine = match loader.load() {
        Ok(engine) => engine,
        Err(LoadEnd::TagsOut) => return end_at_start(err),
        Err(LoadEnd::Memory) => return Err(Cut::Memory),
    };
    let mut feed = Feed::of(fed);
    run_engine(turns, &mut engine, &mut feed, out, err)
}

/// Runs an image from its start under the policies that the task chooses, as `W`, on the engine that suits the task.
fn run_whole<W: Whole, K: Sink, L: Sink>(
    alloc: Global,
    task: RunTask<'_>,
    image: &Image,
    secret: &[u8],
    fed: Vec<u8>,
    out: &mut K,
    err: &mut L,
) -> Result<Status, Cut>
    requires rules { IsCacheSize task.cache }
    requires tags { 1 ≤ task.tags }
    ensures does { Does (outcome_of_course (course_by W.Tag.eq W.Policy.model
        (W.chosen (basis_of task.entry.choice) secret.now image.now)
        (run_value task.entry) image.now fed.items))
        (record { out = K.taken out.old; err = L.taken err.old })
        (record { out = K.taken out.new; err = L.taken err.new }) result }
    ensures faults { PutsFaultBy
        (record { out = K.faults out.old; err = L.faults err.old })
        (record { out = K.faults out.new; err = L.faults err.new }) result }
    ensures kind { IfOk result IsOfRun }
{
    let basis = basis_of(task.choice);
    match chosen_load::<W>(alloc, image, basis, secret, task.cache, task.tags) {
        ChosenLoad::Asked(loader) => run_load(task.turns, &loader, fed, out, err),
        ChosenLoad::Kept(loader) => run_load(task.turns, &loader, fed, out, err),
        ChosenLoad::InSets(loader) => run_load(task.turns, &loader, fed, out, err),
    }
}

/// Runs an image from its start on these bytes of input, on the engine that suits the task. Where no policy is chosen that is one
/// whose tags have no size: it shows the same whatever is kept.
pub(crate) fn run_image<K: Sink, L: Sink>(
    alloc: Global,
    task: RunTask<'_>,
    image: &Image,
    secret: &[u8],
    fed: Vec<u8>,
    out: &mut K,
    err: &mut L,
) -> Result<Status, Cut>
    requires rules { IsCacheSize task.cache }
    requires tags { 1 ≤ task.tags }
    ensures does { Does (outcome_of_run (run_value task.entry) secret.now image.now fed.items)
        (record { out = K.taken out.old; err = L.taken err.old })
        (record { out = K.taken out.new; err = L.taken err.new }) result }
    ensures faults { PutsFaultBy
        (record { out = K.faults out.old; err = L.faults err.old })
        (record { out = K.faults out.new; err = L.faults err.new }) result }
    ensures kind { IfOk result IsOfRun }
{
    if task.choice.is_none() {
        let loader = BareLoad::new(alloc, image);
        return run_load(task.turns, &loader, fed, out, err);
    }
    if task.choice.secret {
        return run_whole::<Hidden, K, L>(alloc, task, image, secret, fed, out, err);
    }
    run_whole::<All, K, L>(alloc, task, image, secret, fed, out, err)
}

/// Loads the image, and the secret bytes where secrecy is chosen, reads the whole input, and runs the image on it.
pub(crate) fn run_task<F: Files, S: Source, K: Sink, L: Sink>(
    alloc: Global,
    task: RunTask<'_>,
    files: &mut F,
    input: &mut S,
    out: &mut K,
    err: &mut L,
) -> Result<Status, Cut>
    requires rules { IsCacheSize task.cache }
    requires tags { 1 ≤ task.tags }
    ensures { HeadlineOf (run (run_value task.entry)) (status_in result)
        (environment F.tells F.held F.read_faults F.write_faults F.calls S.left S.closed S.faults
        K.taken K.faults L.taken L.faults files.old input.old out.old err.old)
        (environment F.tells F.held F.read_faults F.write_faults F.calls S.left S.closed S.faults
        K.taken K.faults L.taken L.faults files.new input.new out.new err.new) }
{
    let image = match load_image(alloc, files, task.image) {
        Ok(image) => image,
        Err(end) => return end_early(err, end),
    };
    let secret = match load_secret(alloc, files, task.choice, task.secret) {
        Ok(secret) => secret,
        Err(end) => return end_early(err, end),
    };
    let fed = match read_input(alloc, input) {
        Ok(fed) => fed,
        Err(end) => return end_early(err, end),
    };
    run_image(alloc, task, &image, &secret, fed, out, err)
}
