//! Rules that are found, moved, replaced and dropped, and the counts.

use crate::given::{key, outs};
use rule_cache::{InWords, Key, RuleCache, RuleStore};
use rv_decode::Group;
use std::alloc::AllocError;
use std::test::Fail;

/// A call, and what it answers.
#[derive(Clone, Copy)]
enum Call {
    /// A rule of that group with this word for each tag is looked for, and has these words of the pc and of what is written.
    Find(Group, u32, Option<(u32, u32)>),
    /// Such a rule is kept.
    Keep(Group, u32, (u32, u32)),
    Clear,
    /// The hits and the misses.
    Counts(u64, u64),
}

/// The calls on a store of two rules, in order.
const CALLS: &[Call] = &[
    Call::Find(Group::Add, 1, None),
    Call::Keep(Group::Add, 1, (10, 11)),
    Call::Keep(Group::Sub, 1, (20, 21)),
    // Add is found and so the most recent, and the third rule takes the place of Sub
    Call::Find(Group::Add, 1, Some((10, 11))),
    Call::Keep(Group::Add, 2, (30, 31)),
    // a rule with a key that is there takes that rule's place alone
    Call::Keep(Group::Add, 2, (40, 41)),
    Call::Find(Group::Sub, 1, None),
    Call::Find(Group::Add, 1, Some((10, 11))),
    Call::Find(Group::Add, 2, Some((40, 41))),
    Call::Find(Group::Add, 2, Some((40, 41))),
    Call::Find(Group::Add, 3, None),
    Call::Counts(4, 3),
    Call::Clear,
    Call::Find(Group::Add, 2, None),
    Call::Counts(4, 4),
    Call::Keep(Group::Call, u32::MAX, (0, 1)),
    Call::Find(Group::Call, u32::MAX, Some((0, 1))),
];

#[test]
fn rules_by_recency(rt: HostRuntime) -> Result<(), Fail> {
    let mut rules = RuleCache::made(rt.alloc(), 1, 2)?;
    for (at, &call) in CALLS.iter().enumerate() {
        assert!(rt; answers_as_stated(&mut rules, call)?, "call {at}");
    }
    Ok(())
}

/// Whether a call answers what it states.
fn answers_as_stated<C: RuleStore>(rules: &mut C, call: Call) -> Result<bool, AllocError> {
    match call {
        Call::Find(group, word, Some((pc, written))) => {
            Ok(rules.find(&key(group, word)) == Some(outs(pc, written)))
        }
        Call::Find(group, word, None) => Ok(rules.find(&key(group, word)).is_none()),
        Call::Keep(group, word, (pc, written)) => {
            rules.keep(key(group, word), outs(pc, written))?;
            Ok(true)
        }
        Call::Clear => {
            rules.clear();
            Ok(true)
        }
        Call::Counts(hits, misses) => Ok(rules.hits() == hits && rules.misses() == misses),
    }
}

#[test]
fn keys_that_differ_in_one_place(rt: HostRuntime) -> Result<(), Fail> {
    let mut rules = RuleCache::made(rt.alloc(), 1, 1)?;
    let kept = key(Group::Jal, 5);
    rules.keep(kept, outs(1, 2))?;
    assert!(rt; misses_others(&mut rules, kept.words));
    assert!(rt; rules.find(&kept) == Some(outs(1, 2)));
    Ok(())
}

/// Whether no rule is found by a key that differs in one place from that of a jump with these words.
fn misses_others<C: RuleStore>(rules: &mut C, words: InWords) -> bool {
    for (group, words) in [
        (Group::Jalr, words),
        (Group::Jal, InWords { pc: 6, ..words }),
        (Group::Jal, InWords { ci: 6, ..words }),
        (Group::Jal, InWords { t1: 6, ..words }),
        (Group::Jal, InWords { t2: 6, ..words }),
        (Group::Jal, InWords { tm: 6, ..words }),
    ] {
        if rules.find(&Key { group, words }).is_some() {
            return false;
        }
    }
    true
}
