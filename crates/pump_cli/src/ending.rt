//! The last line of a run, and its status.

ghost use Rattle.std.specs.Prelude.{◌≡◌, ℕ, List, Option, IfOk};
ghost use Rattle.host_io.specs.Causes.{PutCause};
ghost use Rattle.host_io.specs.Pieces.{Puts};
ghost use Rattle.rounds.specs.Course.{rounds};
ghost use Rattle.pump_cli.specs.Codes.{IsOfRun};
ghost use Rattle.pump_cli.specs.Endings.{has_any, is_of, is_out, last_pieces, out_at_start, outcome_of_course, status_of, status_of_stops};
ghost use Rattle.pump_cli.specs.Facts.{Does, PutsFaultBy};

use crate::cut::Cut;
use crate::status::Status;
use engine_trait::{Engine, Feed, Halt, Stop};
use host_io::{PutEnd, Sink};
use rounds::{make_rounds, stops_of};

/// A kind of stop, or none.
#[derive(Clone, Copy)]
pub(crate) enum Kind {
    /// A policy's refusal.
    Violation,
    /// A fault.
    Fault,
    /// No stop.
    Ready,
    /// An exit with another code than 0.
    NonzeroExit,
}

/// Whether the stop is of the kind.
fn is_of(kind: Kind, stop: Option<Stop>) -> bool
    ensures { result ≡ is_of kind stop }
{
    match kind {
        Kind::Violation => matches!(stop, Some(Stop::Violation { .. })),
        Kind::Fault => matches!(stop, Some(Stop::Fault(_))),
        Kind::Ready => stop.is_none(),
        Kind::NonzeroExit => match stop {
            Some(Stop::Exit(code)) => code != 0,
            _ => false,
        },
    }
}

/// Whether some stop is of the kind.
fn has_any(kind: Kind, stops: &[Option<Stop>]) -> bool
    ensures { result ≡ has_any kind stops.now }
{
    for stop in stops {
        if is_of(kind, *stop) {
            return true;
        }
    }
    false
}

/// Whether the engine ran out of tag numbers.
fn is_out(halt: Option<Halt>) -> bool
    ensures { result ≡ is_out halt }
{
    matches!(halt, Some(Halt::TagNumbers))
}

/// The status of a run that ended with these stops, of an engine that has tag numbers left.
#[tactic(auto, unfolding(crate::specs::Endings::status_of_stops))]
fn status_of_stops(stops: &[Option<Stop>]) -> Status
    ensures value { result ≡ status_of_stops stops.now }
    ensures kind { IsOfRun result }
{
    if has_any(Kind::Violation, stops) {
        Status::Violated
    } else if has_any(Kind::Fault, stops) {
        Status::Faulted
    } else if has_any(Kind::Ready, stops) {
        Status::TurnsSpent
    } else if has_any(Kind::NonzeroExit, stops) {
        Status::ExitedNonzero
    } else {
        Status::Done
    }
}

/// The status of a run that ended with these stops and for this reason.
pub(crate) fn status_of(halt: Option<Halt>, stops: &[Option<Stop>]) -> Status
    ensures value { result ≡ status_of halt stops.now }
    ensures kind { IsOfRun result }
{
    if is_out(halt) {
        Status::TagsOut
    } else {
        status_of_stops(stops)
    }
}

/// Tells that the engine ran out of tag numbers, or else that the turns ran out with a hart ready.
#[tactic(auto, unfolding(crate::specs::Endings::last_pieces))]
fn tell_last<L: Sink>(halt: Option<Halt>, stops: &[Option<Stop>], err: &mut L) -> Result<(), PutEnd>
    ensures told { (out : Option (List ℕ)) → Puts
        (record { out = out; err = L.taken err.old })
        (record { out = out; err = L.taken err.new }) (last_pieces halt stops.now) result }
    ensures cause { PutCause (L.faults err.old) (L.faults err.new) result }
{
    if is_out(halt) {
        return err.put(b"tags out\n");
    }
    let is_spent = has_any(Kind::Ready, stops);
    if is_spent {
        return err.put(b"turns spent\n");
    }
    Ok(())
}

/// Tells that an engine is out of tag numbers at its start, which ends its run.
pub(crate) fn end_at_start<L: Sink>(err: &mut L) -> Result<Status, Cut>
    ensures does { (out : Option (List ℕ)) → Does out_at_start
        (record { out = out; err = L.taken err.old })
        (record { out = out; err = L.taken err.new }) result }
    ensures faults { (out : ℕ) → PutsFaultBy
        (record { out = out; err = L.faults err.old })
        (record { out = out; err = L.faults err.new }) result }
    ensures kind { IfOk result IsOfRun }
{
    tell_last(Some(Halt::TagNumbers), &[], err)?;
    Ok(Status::TagsOut)
}

/// Runs an engine for at most so many turns, and tells how it ended.
pub(crate) fn run_engine<E: Engine, K: Sink, L: Sink>(
    limit: u64,
    engine: &mut E,
    feed: &mut Feed,
    out: &mut K,
    err: &mut L,
) -> Result<Status, Cut>
    ensures does { Does
        (outcome_of_course (rounds E.P.Tag.eq E.P.model limit 0 (E.standing engine.old) feed.old))
        (record { out = K.taken out.old; err = L.taken err.old })
        (record { out = K.taken out.new; err = L.taken err.new }) result }
    ensures faults { PutsFaultBy
        (record { out = K.faults out.old; err = L.faults err.old })
        (record { out = K.faults out.new; err = L.faults err.new }) result }
    ensures kind { IfOk result IsOfRun }
{
    make_rounds(limit, engine, feed, out, err)?;
    let stops = stops_of(engine);
    let halt = engine.halt();
    tell_last(halt, &stops, err)?;
    Ok(status_of(halt, &stops))
}
