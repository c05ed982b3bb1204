//! The policy of secrecy under both engines, alone and beside sealing: programs that would tell a secret byte are stopped where they
//! would, and whatever the byte is, they stop alike.

use crate::ends::{End, end_under};
use engine_trait::{Feed, Stop};
use policy_product::Both;
use policy_trait::{Part, Why};
use rv_decode::Group;
use sealing_policy::Sealing;
use secrecy_policy::Secrecy;
use std::alloc::Global;
use std::test::Fail;

/// A program of one hart, how many turns it has, and how it stops then.
struct SecretRow {
    words: &'static [u32],
    turns: u32,
    stop: Stop,
}

const SECRET_ROWS: &[SecretRow] = &[
    // li a7, 64; ecall; li a7, 1; ecall: the byte is put
    SecretRow {
        words: &[0x0400_0893, 0x0000_0073, 0x0010_0893, 0x0000_0073],
        turns: 4,
        stop: Stop::Violation {
            part: Part::Secret,
            why: Why::Rule(Group::Put),
            pc: 12,
        },
    },
    // li a7, 64; ecall; lw x5, 0(a0): its alignment would be told
    SecretRow {
        words: &[0x0400_0893, 0x0000_0073, 0x0005_2283],
        turns: 3,
        stop: Stop::Violation {
            part: Part::Secret,
            why: Why::Peek,
            pc: 8,
        },
    },
    // li a7, 64; ecall; sw a0, 64(x0); jal x0, 52: whether it is an instruction would be told
    SecretRow {
        words: &[0x0400_0893, 0x0000_0073, 0x04A0_2023, 0x0340_006F],
        turns: 5,
        stop: Stop::Violation {
            part: Part::Secret,
            why: Why::Peek,
            pc: 64,
        },
    },
    // li a7, 64; ecall; li a0, 0; li a7, 0; ecall: nothing is told
    SecretRow {
        words: &[
            0x0400_0893,
            0x0000_0073,
            0x0000_0513,
            0x0000_0893,
            0x0000_0073,
        ],
        turns: 5,
        stop: Stop::Exit(0),
    },
];

/// Where the row's program ends that this byte is answered, on an engine that keeps `cache` rules.
fn end_of(alloc: Global, byte: u8, cache: u32, row: &SecretRow) -> Result<End, Fail> {
    let policy = Secrecy::new(alloc, &[byte])?;
    let mut feed = Feed::new(alloc);
    end_under(alloc, policy, cache, row.words, &mut feed, row.turns)
}

/// The same beside sealing, on an engine that keeps 8 rules.
fn end_beside_sealing(alloc: Global, byte: u8, row: &SecretRow) -> Result<End, Fail> {
    let policy = Both::new(Sealing::new(), Secrecy::new(alloc, &[byte])?);
    let mut feed = Feed::new(alloc);
    end_under(alloc, policy, 8, row.words, &mut feed, row.turns)
}

/// Whether that is the row's stop.
fn is_stop_of(end: End, row: &SecretRow) -> bool {
    end.is_some_and(|(_, stop)| stop == Some(row.stop))
}

#[test]
fn no_secret_is_told(rt: HostRuntime) -> Result<(), Fail> {
    for (at, row) in SECRET_ROWS.iter().enumerate() {
        for cache in [0, 8] {
            let one = end_of(rt.alloc(), 1, cache, row)?;
            let four = end_of(rt.alloc(), 4, cache, row)?;
            assert!(rt; one == four, "row {at}, cache {cache}");
            assert!(rt; is_stop_of(one, row), "row {at}");
        }
    }
    Ok(())
}

#[test]
fn no_secret_is_told_beside_sealing(rt: HostRuntime) -> Result<(), Fail> {
    for (at, row) in SECRET_ROWS.iter().enumerate() {
        for byte in [1, 4] {
            let end = end_beside_sealing(rt.alloc(), byte, row)?;
            assert!(rt; is_stop_of(end, row), "row {at}");
        }
    }
    Ok(())
}
