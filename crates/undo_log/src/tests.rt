//! Logs by hand: which records are kept, the order in which they come out, a tag changed in its place, and the words that
//! logs hold.

ghost use Rattle.std.specs.Prelude.{◌≤◌};

use crate::{NoLog, Record, Replaced, TurnStart, UndoLog, WordLog};
use policy_trait::Plan;
use std::alloc::{AllocError, Global};
use std::test::Fail;

type Log = UndoLog<u32, u64>;

/// What a turn at this pc replaced: x5, which had the tag 7, and one word of a service's range, with the tag 8.
fn record_at(alloc: Global, pc: u32) -> Result<Record<u32, u64>, AllocError> {
    let start = TurnStart {
        hart: 0,
        pc,
        pc_tag: 6,
    };
    let answered = Replaced {
        place: 5,
        value: 1,
        tag: 7,
    };
    let word = Replaced {
        place: 64,
        value: 2,
        tag: 8,
    };
    let plan = Plan {
        service: 48,
        pc: 3,
        note: 0,
        range: None,
        zero: false,
        answer: None,
    };
    let words = vec![in alloc; word]?;
    Record::of_service(alloc, start, Some(answered), words, &plan)
}

/// A log for at most so many, to which the records of turns at these pcs have come, in order.
fn log_of(alloc: Global, most: u32, pcs: &[u32]) -> Result<Log, AllocError>
    requires { most ≤ 65536 }
{
    let mut log = UndoLog::new(alloc, most)?;
    for &pc in pcs {
        log.push(record_at(alloc, pc)?);
    }
    Ok(log)
}

/// The pc of the record at that place, if there is one.
fn pc_at(log: &Log, i: u32) -> Option<u32> {
    if i < log.len() {
        Some(log.at(i).pc())
    } else {
        None
    }
}

/// The pc of the newest record, which is taken out, if there is one.
fn popped_pc(log: &mut Log) -> Option<u32> {
    match log.pop() {
        Some(made) => Some(made.pc()),
        None => None,
    }
}

#[test]
fn the_last_two_of_three(rt: HostRuntime) -> Result<(), Fail> {
    let mut log = log_of(rt.alloc(), 2, &[100, 104, 108])?;
    assert_eq!(rt; log.len(), 2);
    // the oldest was dropped, so that the second is the oldest now
    assert_eq!(rt; pc_at(&log, 0), Some(104));
    assert_eq!(rt; pc_at(&log, 1), Some(108));
    assert_eq!(rt; popped_pc(&mut log), Some(108));
    assert_eq!(rt; popped_pc(&mut log), Some(104));
    assert_eq!(rt; popped_pc(&mut log), None);
    assert_eq!(rt; log.len(), 0);
    Ok(())
}

#[test]
fn a_log_for_none(rt: HostRuntime) -> Result<(), Fail> {
    let mut log = log_of(rt.alloc(), 0, &[100, 104])?;
    assert_eq!(rt; log.len(), 0);
    assert_eq!(rt; popped_pc(&mut log), None);
    Ok(())
}

#[test]
fn pushed_after_a_pop_and_after_a_clear(rt: HostRuntime) -> Result<(), Fail> {
    let mut log = log_of(rt.alloc(), 2, &[100, 104, 108])?;
    assert_eq!(rt; popped_pc(&mut log), Some(108));
    log.push(record_at(rt.alloc(), 112)?);
    assert_eq!(rt; pc_at(&log, 0), Some(104));
    assert_eq!(rt; pc_at(&log, 1), Some(112));
    log.clear();
    assert_eq!(rt; log.len(), 0);
    log.push(record_at(rt.alloc(), 116)?);
    assert_eq!(rt; pc_at(&log, 0), Some(116));
    Ok(())
}

/// Changes the tag of the pc in the record at that place, where there is one, to 9.
fn tag_with_nine(log: &mut Log, i: u32) {
    if i < log.len() {
        log.at_mut(i).start.pc_tag = 9;
    }
}

/// The tag of the pc in the record at that place, and the first of its range, if there is such a record.
fn tags_at(log: &Log, i: u32) -> Option<(u32, u32)> {
    if i < log.len() {
        let made = log.at(i);
        let word = made.range().first()?;
        Some((made.pc_tag(), word.tag))
    } else {
        None
    }
}

#[test]
fn a_tag_changed_in_its_place(rt: HostRuntime) -> Result<(), Fail> {
    let mut log = log_of(rt.alloc(), 3, &[100, 104, 108])?;
    tag_with_nine(&mut log, 1);
    assert_eq!(rt; tags_at(&log, 0), Some((6, 8)));
    assert_eq!(rt; tags_at(&log, 1), Some((9, 8)));
    assert_eq!(rt; tags_at(&log, 2), Some((6, 8)));
    assert_eq!(rt; pc_at(&log, 1), Some(104));
    Ok(())
}

/// The words that the records of a log hold.
fn words_of<L: WordLog>(alloc: Global, log: &L) -> Result<Vec<u32>, AllocError> {
    let mut words = Vec::new(alloc);
    log.push_words(&mut words)?;
    Ok(words)
}

#[test]
fn words_told_and_renumbered(rt: HostRuntime) -> Result<(), Fail> {
    let mut log = log_of(rt.alloc(), 2, &[100, 104])?;
    assert!(rt; log.keeps());
    let told = words_of(rt.alloc(), &log)?;
    assert_eq!(rt; told.as_slice(), [6, 7, 8, 6, 7, 8].as_slice());
    // the number of 8 is past the end of the list
    log.renumber(&[10, 11, 12, 13, 14, 15, 16, 17]);
    let told = words_of(rt.alloc(), &log)?;
    assert_eq!(rt; told.as_slice(), [16, 17, 0, 16, 17, 0].as_slice());
    Ok(())
}

#[test]
fn a_log_that_never_keeps_a_record(rt: HostRuntime) -> Result<(), Fail> {
    let mut log: NoLog<u64> = NoLog::new();
    assert!(rt; !log.keeps());
    log.push(record_at(rt.alloc(), 100)?);
    log.renumber(&[10]);
    assert_eq!(rt; words_of(rt.alloc(), &log)?.len(), 0);
    assert!(rt; log.pop().is_none());
    Ok(())
}

#[test]
fn records_of_a_register_of_a_word_and_of_a_service(rt: HostRuntime) -> Result<(), Fail> {
    let start = TurnStart {
        hart: 1,
        pc: 100,
        pc_tag: 6,
    };
    let old = Replaced {
        place: 8,
        value: 1,
        tag: 7,
    };
    let read: Record<u32, u64> = Record::of_register(start, Some(old), Some(65));
    assert_eq!(rt; (read.hart(), read.pc(), read.fed()), (1, 100, Some(65)));
    assert!(rt; read.reg() == Some(old) && read.word().is_none() && read.plan().is_none());
    let stored: Record<u32, u64> = Record::of_word(start, old);
    assert!(rt; stored.word() == Some(old) && stored.reg().is_none() && stored.range().is_empty());
    let bare: Record<u32, u64> = Record::bare(start);
    assert!(rt; bare.word().is_none() && bare.reg().is_none() && bare.fed().is_none());
    let served = record_at(rt.alloc(), 104)?;
    assert_eq!(rt; served.plan().map(|plan| plan.service), Some(48));
    assert_eq!(rt; served.range().len(), 1);
    assert_eq!(rt; served.reg().map(|reg| reg.place), Some(5));
    Ok(())
}
