//! `load`: a workload, by the image of its source, its turns, and the line that tells how they went.

ghost use Rattle.std.specs.Prelude.{◌≡◌, ℕ, [], List, Option, ◌+◌, ◌*◌, ◌≤◌, Ok, Err, IfOk, OnOk};
ghost use Rattle.cache_size.specs.Sizes.{IsCacheSize};
ghost use Rattle.turn_steps.specs.Feeds.{tape_of};
ghost use Rattle.engine_trait.specs.Accounts.{counts_of};
ghost use Rattle.rounds.specs.Course.{hart_stops, rounds};
ghost use Rattle.workload.specs.Source.{source_of_workload};
ghost use Rattle.pump_line.specs.Task.{load};
ghost use Rattle.pump_line.specs.Told.{load_value};
ghost use Rattle.pump_cli.specs.Codes.{IsOfRun, code_of};
ghost use Rattle.pump_cli.specs.Early.{IsOfFile};
ghost use Rattle.pump_cli.specs.Endings.{status_of};
ghost use Rattle.pump_cli.specs.Environments.{environment};
ghost use Rattle.pump_cli.specs.Facts.{Does, PutsFaultBy, status_in};
ghost use Rattle.pump_cli.specs.Program.{no_counts, outcome_of_counts, outcome_of_load, outcome_of_work};
ghost use Rattle.pump_cli.specs.Program.{standing_at_start};
ghost use Rattle.pump_cli.specs.Reading.{source_read};
ghost use Rattle.pump_cli.specs.Texts.{workload_line};
ghost use Rattle.pump_cli.specs.Theorem.{HeadlineOf};
ghost use Rattle.pump_cli.specs.declared.cut.Cut.{Cut};
ghost use Rattle.pump_cli.specs.declared.refusal.Refusal.{Refusal};

use crate::basis::basis_of;
use crate::cut::Cut;
use crate::ending::status_of;
use crate::reading::{EarlyEnd, FILE_LIMIT, image_of_source};
use crate::refusal::{Refusal, end_early};
use crate::status::Status;
use engine_trait::{Counts, Engine, Feed, LoadEnd, Loader};
use host_io::{Files, Sink, Source, SureSink};
use image_format::Image;
use policy_choice::{All, Choice};
use pump_line::LoadTask;
use pump_loader::{ChosenLoad, chosen_load};
use pump_words::{Line, write_text};
use rounds::{make_rounds, stops_of};
use std::alloc::Global;
use tag_text::write_number;
use workload::write_workload;

/// The policies of a workload: all but secrecy, which has nothing to do in it.
const EVERY_POLICY: Choice = Choice {
    seal: true,
    comp: true,
    flow: true,
    heap: true,
    secret: false,
};

/// The counts of an engine that made no turn.
const NO_COUNTS: Counts = Counts {
    turns: 0,
    hits: 0,
    misses: 0,
    sweeps: 0,
};

/// The image of a workload of so many blocks, whose source has the limit of a file.
fn make_workload(alloc: Global, count: u32) -> Result<Image, EarlyEnd>
    ensures taken { IfOk result (λ image. source_read (source_of_workload count) ≡ Ok image) }
    ensures refused { (refusal : Refusal) → result ≡ Err (EarlyEnd.Refused refusal) →
        source_read (source_of_workload count) ≡ Err refusal }
    ensures of_file { (refusal : Refusal) → result ≡ Err (EarlyEnd.Refused refusal) →
        IsOfFile refusal }
    ensures cut { (cut : Cut) → result ≡ Err (EarlyEnd.Cut cut) → cut ≡ Cut.Memory }
{
    let Ok(source) = write_workload(alloc, count) else {
        return Err(EarlyEnd::Cut(Cut::Memory));
    };
    if source.len() > FILE_LIMIT {
        return Err(EarlyEnd::Refused(Refusal::TooLong));
    }
    image_of_source(alloc, &source)
}

/// The line that tells how a workload of so many blocks went.
#[tactic(auto, unfolding(crate::specs::Texts::workload_line))]
fn line_of_workload(count: u32, counts: Counts, status: Status) -> Line
    ensures { result.items ≡ workload_line count counts (code_of status) }
{
    let mut line = Line::new();
    write_number(&mut line, b"load ", u64::from(count));
    write_number(&mut line, b" turns ", counts.turns);
    write_number(&mut line, b" hits ", counts.hits);
    write_number(&mut line, b" misses ", counts.misses);
    write_number(&mut line, b" status ", u64::from(status.code()));
    write_text(&mut line, b"\n");
    line
}

/// Tells in one line on standard output how a workload of so many blocks went, which ends the program with its status.
fn tell_workload<K: Sink>(
    count: u32,
    counts: Counts,
    status: Status,
    out: &mut K,
) -> Result<Status, Cut>
    ensures does { (err : Option (List ℕ)) → Does (outcome_of_counts count counts status)
        (record { out = K.taken out.old; err = err })
        (record { out = K.taken out.new; err = err }) result }
    ensures faults { (err : ℕ) → PutsFaultBy
        (record { out = K.faults out.old; err = err })
        (record { out = K.faults out.new; err = err }) result }
    ensures status { IfOk result (λ told. told ≡ status) }
{
    let line = line_of_workload(count, counts, status);
    match out.put(&line) {
        Ok(()) => Ok(status),
        Err(end) => Err(Cut::from(end)),
    }
}

/// Makes at most `limit` turns of an engine, on an empty feed. What they show goes nowhere; the status is that of the run.
fn run_unseen<E: Engine>(alloc: Global, limit: u64, engine: &mut E) -> Result<Status, Cut>
    ensures standing { OnOk result (E.standing engine.new
        ≡ (rounds E.P.Tag.eq E.P.model limit 0 (E.standing engine.old) (tape_of [])).standing) }
    ensures status { IfOk result (λ status. status
        ≡ status_of (E.standing engine.new).account.halt
        (hart_stops (E.standing engine.new).machine.core)) }
    ensures kind { IfOk result IsOfRun }
    ensures cut { (cut : Cut) → result ≡ Err cut → cut ≡ Cut.Memory }
{
    let mut feed = Feed::of(Vec::new(alloc));
    let mut out = SureSink::new(alloc);
    let mut err = SureSink::new(alloc);
    match make_rounds(limit, engine, &mut feed, &mut out, &mut err) {
        Ok(()) => Ok(status_of(engine.halt(), &stops_of(engine))),
        // These sinks have no faults: memory ran out, for what the turns show or in the engine.
        Err(_) => Err(Cut::Memory),
    }
}

/// Runs a workload of so many blocks on what a loader starts, and tells how it went; a start that needs too many tag numbers
/// makes no turn. It stays a call, so that each kind of engine has a loop of its own.
#[inline(never)]
fn run_blocks<D: Loader, K: Sink>(
    alloc: Global,
    count: u32,
    loader: &D,
    out: &mut K,
) -> Result<Status, Cut>
    requires { counts_of (D.start loader.now).account ≡ no_counts }
    ensures does { (err : Option (List ℕ)) → Does (outcome_of_work count
        (rounds D.E.P.Tag.eq D.E.P.model (10 * count + 4) 0
        (standing_at_start (D.start loader.now)) (tape_of [])))
        (record { out = K.taken out.old; err = err })
        (record { out = K.taken out.new; err = err }) result }
    ensures faults { (err : ℕ) → PutsFaultBy
        (record { out = K.faults out.old; err = err })
        (record { out = K.faults out.new; err = err }) result }
    ensures kind { IfOk result IsOfRun }
{
    let mut engine = match loader.load() {
        Ok(engine) => engine,
        Err(LoadEnd::TagsOut) => return tell_workload(count, NO_COUNTS, Status::TagsOut, out),
        Err(LoadEnd::Memory) => return Err(Cut::Memory),
    };
    let limit = 10 * u64::from(count) + 4;
    match run_unseen(alloc, limit, &mut engine) {
        Ok(status) => tell_workload(count, engine.counts(), status, out),
        Err(cut) => Err(cut),
    }
}

/// Runs the image of a workload under every policy, on the engine that suits the task.
fn run_workload<K: Sink>(
    alloc: Global,
    task: LoadTask,
    image: &Image,
    out: &mut K,
) -> Result<Status, Cut>
    requires rules { IsCacheSize task.cache }
    requires tags { 1 ≤ task.tags }
    ensures does { (err : Option (List ℕ)) → Does
        (outcome_of_load (load_value task) image.now)
        (record { out = K.taken out.old; err = err })
        (record { out = K.taken out.new; err = err }) result }
    ensures faults { (err : ℕ) → PutsFaultBy
        (record { out = K.faults out.old; err = err })
        (record { out = K.faults out.new; err = err }) result }
    ensures kind { IfOk result IsOfRun }
{
    match chosen_load::<All>(
        alloc,
        image,
        basis_of(EVERY_POLICY),
        &[],
        task.cache,
        task.tags,
    ) {
        ChosenLoad::Asked(loader) => run_blocks(alloc, task.count, &loader, out),
        ChosenLoad::Kept(loader) => run_blocks(alloc, task.count, &loader, out),
        ChosenLoad::InSets(loader) => run_blocks(alloc, task.count, &loader, out),
    }
}

/// Makes the image of a workload, and runs it.
pub(crate) fn load_task<F: Files, S: Source, K: Sink, L: Sink>(
    alloc: Global,
    task: LoadTask,
    files: &mut F,
    input: &mut S,
    out: &mut K,
    err: &mut L,
) -> Result<Status, Cut>
    requires rules { IsCacheSize task.cache }
    requires tags { 1 ≤ task.tags }
    ensures { HeadlineOf (load (load_value task)) (status_in result)
        (environment F.tells F.held F.read_faults F.write_faults F.calls S.left S.closed S.faults
        K.taken K.faults L.taken L.faults files.old input.old out.old err.old)
        (environment F.tells F.held F.read_faults F.write_faults F.calls S.left S.closed S.faults
        K.taken K.faults L.taken L.faults files.new input.new out.new err.new) }
{
    match make_workload(alloc, task.count) {
        Ok(image) => run_workload(alloc, task, &image, out),
        Err(end) => end_early(err, end),
    }
}
