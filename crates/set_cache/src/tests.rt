//! Rules that stay in sets, by hand: the numbers of the groups of a jump and of an addition of an immediate are 3 and 11, so
//! that both fall to set 1 of two, and to different ones of three.

ghost use Rattle.std.specs.Prelude.{◌*◌, ◌≤◌};

use crate::SetCache;
use policy_trait::{Ins, Outs};
use rule_cache::{Key, OutWords, RuleStore};
use rv_decode::Group;
use std::alloc::{AllocError, Global};
use std::test::Fail;

// The key of a group with this word for each tag.
fn key(group: Group, word: u32) -> Key {
    Key {
        group,
        words: Ins {
            pc: word,
            ci: word,
            t1: word,
            t2: word,
            tm: word,
        },
    }
}

// Outputs that are told from others by this word.
fn outs(word: u32) -> OutWords {
    Outs {
        pc: word,
        result: 0,
    }
}

/// Whether the rules of a jump and of an addition that are kept in turn are both found then.
fn both_stay(alloc: Global, sets: u32, ways: u32) -> Result<bool, AllocError>
    requires some { 1 ≤ sets }
    requires room { 1 ≤ ways }
    requires within { sets * ways ≤ 65536 }
{
    let mut rules = SetCache::made(alloc, sets, ways)?;
    rules.keep(key(Group::Jal, 1), outs(3)).unwrap();
    rules.keep(key(Group::AddImm, 1), outs(11)).unwrap();
    let jump = rules.find(&key(Group::Jal, 1));
    let addition = rules.find(&key(Group::AddImm, 1));
    Ok(jump == Some(outs(3)) && addition == Some(outs(11)))
}

#[test]
fn groups_that_share_a_set(rt: HostRuntime) -> Result<(), Fail> {
    assert!(rt; !both_stay(rt.alloc(), 1, 1)?);
    assert!(rt; !both_stay(rt.alloc(), 2, 1)?);
    assert!(rt; both_stay(rt.alloc(), 1, 2)?);
    assert!(rt; both_stay(rt.alloc(), 2, 2)?);
    assert!(rt; both_stay(rt.alloc(), 3, 1)?);
    Ok(())
}

/// A call, and what it answers.
#[derive(Clone, Copy)]
enum Call {
    /// A rule of that group with this word for each tag is looked for, and has these outputs.
    Find(Group, u32, Option<u32>),
    /// Such a rule is kept.
    Keep(Group, u32, u32),
    Clear,
    /// The hits and the misses.
    Counts(u64, u64),
}

/// The calls on a store of two sets of two rules, in order.
const CALLS: &[Call] = &[
    Call::Find(Group::Jal, 1, None),
    Call::Keep(Group::Jal, 1, 10),
    Call::Keep(Group::AddImm, 1, 20),
    // a rule of the other set, which leaves this one
    Call::Keep(Group::Here, 1, 30),
    // the first is found behind the second, and so the most recent
    Call::Find(Group::Jal, 1, Some(10)),
    // the set is full, and its least recent rule goes
    Call::Keep(Group::Jal, 2, 40),
    Call::Find(Group::AddImm, 1, None),
    Call::Find(Group::Jal, 1, Some(10)),
    // a rule whose key is there takes that rule's place alone
    Call::Keep(Group::Jal, 2, 50),
    Call::Find(Group::Jal, 2, Some(50)),
    Call::Find(Group::Jal, 2, Some(50)),
    Call::Find(Group::Jal, 1, Some(10)),
    Call::Find(Group::Here, 1, Some(30)),
    Call::Counts(6, 2),
    Call::Clear,
    Call::Find(Group::Jal, 1, None),
    Call::Find(Group::Here, 1, None),
    Call::Counts(6, 4),
    Call::Keep(Group::Jal, 1, 60),
    Call::Find(Group::Jal, 1, Some(60)),
];

#[test]
fn rules_by_recency(rt: HostRuntime) -> Result<(), Fail> {
    let mut rules = SetCache::made(rt.alloc(), 2, 2)?;
    for (at, &call) in CALLS.iter().enumerate() {
        assert!(rt; answers_as_stated(&mut rules, call), "call {at}");
    }
    Ok(())
}

/// Whether a call answers what it states.
fn answers_as_stated(rules: &mut SetCache, call: Call) -> bool {
    match call {
        Call::Find(group, word, found) => rules.find(&key(group, word)) == found.map(outs),
        Call::Keep(group, word, written) => {
            rules.keep(key(group, word), outs(written)).unwrap();
            true
        }
        Call::Clear => {
            rules.clear();
            true
        }
        Call::Counts(hits, misses) => rules.hits() == hits && rules.misses() == misses,
    }
}
