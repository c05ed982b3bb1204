//! The policy of taint under both engines, alone and beside sealing.

use crate::ends::{End, end_under};
use engine_trait::{Feed, Stop};
use policy_product::Both;
use policy_trait::{Part, Why};
use rv_decode::Group;
use sealing_policy::Sealing;
use std::alloc::Global;
use std::test::Fail;
use taint_policy::Taint;

/// A program of one hart, the byte that it can get, how many turns it has, its pc then, and the group that taint refuses
/// there, if it refuses one.
struct TaintRow {
    words: &'static [u32],
    byte: u8,
    turns: u32,
    pc: u32,
    refusal: Option<Group>,
}

/// Gets a byte, and jumps there: li a7, 2; ecall; jalr x0, 0(a0).
const JUMP_TO_INPUT: &[u32] = &[0x0020_0893, 0x0000_0073, 0x0005_0067];

/// Jumps to an address of its own: li a0, 12; jalr x0, 0(a0).
const JUMP_TO_CLEAN: &[u32] = &[0x00C0_0513, 0x0005_0067];

/// Gets a byte, and stores a word there: li a7, 2; ecall; sw x0, 0(a0).
const STORE_AT_INPUT: &[u32] = &[0x0020_0893, 0x0000_0073, 0x0005_2023];

/// Gets a byte, and stores a byte behind it: li a7, 2; ecall; addi a0, a0, 4; sb x0, 0(a0).
const STORE_BEHIND_INPUT: &[u32] = &[0x0020_0893, 0x0000_0073, 0x0045_0513, 0x0005_0023];

/// Gets a byte, stores it at 64, loads it from there, and jumps to it: li a7, 2; ecall; sw a0, 64(x0); lw x5, 64(x0);
/// jalr x0, 0(x5).
const JUMP_TO_KEPT: &[u32] = &[
    0x0020_0893,
    0x0000_0073,
    0x04A0_2023,
    0x0400_2283,
    0x0002_8067,
];

/// Gets a byte, and stores it as the next instruction: li a7, 2; ecall; sw a0, 12(x0).
const STORE_AS_CODE: &[u32] = &[0x0020_0893, 0x0000_0073, 0x00A0_2623];

const TAINT_ROWS: &[TaintRow] = &[
    TaintRow {
        words: JUMP_TO_INPUT,
        byte: 64,
        turns: 3,
        pc: 8,
        refusal: Some(Group::Jalr),
    },
    TaintRow {
        words: JUMP_TO_CLEAN,
        byte: 64,
        turns: 2,
        pc: 12,
        refusal: None,
    },
    TaintRow {
        words: STORE_AT_INPUT,
        byte: 64,
        turns: 3,
        pc: 8,
        refusal: Some(Group::StoreWord),
    },
    TaintRow {
        words: STORE_BEHIND_INPUT,
        byte: 64,
        turns: 4,
        pc: 12,
        refusal: Some(Group::StorePart),
    },
    TaintRow {
        words: JUMP_TO_KEPT,
        byte: 64,
        turns: 4,
        pc: 16,
        refusal: None,
    },
    TaintRow {
        words: JUMP_TO_KEPT,
        byte: 64,
        turns: 5,
        pc: 16,
        refusal: Some(Group::Jalr),
    },
    // 13h is the word of a move
    TaintRow {
        words: STORE_AS_CODE,
        byte: 0x13,
        turns: 4,
        pc: 12,
        refusal: Some(Group::Move),
    },
];

/// The pc and the stop of hart 0 that the row says.
fn end_of(row: &TaintRow) -> (u32, Option<Stop>) {
    let stop = row.refusal.map(|group| Stop::Violation {
        part: Part::Own,
        why: Why::Rule(group),
        pc: row.pc,
    });
    (row.pc, stop)
}

/// Where the row's program ends under taint, on an engine that keeps `cache` rules.
fn end_under_taint(alloc: Global, cache: u32, row: &TaintRow) -> Result<End, Fail> {
    let mut feed = Feed::of(vec![in alloc; row.byte]?);
    end_under(alloc, Taint, cache, row.words, &mut feed, row.turns)
}

/// The same beside sealing.
fn end_beside_sealing(alloc: Global, cache: u32, row: &TaintRow) -> Result<End, Fail> {
    let policy = Both::new(Sealing::new(), Taint);
    let mut feed = Feed::of(vec![in alloc; row.byte]?);
    end_under(alloc, policy, cache, row.words, &mut feed, row.turns)
}

#[test]
fn no_turn_goes_by_input(rt: HostRuntime) -> Result<(), Fail> {
    for (at, row) in TAINT_ROWS.iter().enumerate() {
        for cache in [0, 8] {
            let end = end_under_taint(rt.alloc(), cache, row)?;
            assert!(rt; end == Some(end_of(row)), "row {at}, cache {cache}");
        }
    }
    Ok(())
}

#[test]
fn no_turn_goes_by_input_beside_sealing(rt: HostRuntime) -> Result<(), Fail> {
    for (at, row) in TAINT_ROWS.iter().enumerate() {
        for cache in [0, 8] {
            let end = end_beside_sealing(rt.alloc(), cache, row)?;
            assert!(rt; end == Some(end_of(row)), "row {at}, cache {cache}");
        }
    }
    Ok(())
}
