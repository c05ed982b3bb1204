//! Questions one after another, and what each leaves of the tags and of the kept rules.

use crate::toy::Toy;
use miss_handler::{AskEnd, Asking, Masks, Rules, ask};
use policy_trait::{Part, Refused, Why};
use rule_cache::{InWords, OutWords, RuleCache, RuleStore};
use rv_decode::Group;
use std::alloc::Global;
use std::marker::Model;
use std::test::Fail;
use tag_intern::{Interner, TagTable};

/// The refusal of an addition.
const REFUSED: Refused = Refused {
    part: Part::Heap,
    why: Why::Rule(Group::Add),
};

/// Tags, kept rules and the rules that are asked.
#[derive(Drop)]
struct Desk<T: TagTable<Tag = u32>, C: RuleStore, R: Rules<Tag = u32> + Drop> {
    tags: T,
    store: C,
    rules: R,
}

impl<T: TagTable<Tag = u32>, C: RuleStore, R: Rules<Tag = u32> + Drop> Model for Desk<T, C, R> {
    ghost use Rattle.std.specs.Prelude.{◌≡◌, Some, slice_get};
    ghost use Rattle.miss_handler.specs.Asked.{AreRules};

    ghost Value = { Unit {0} };

    ghost view = { λ d. tt };

    ghost invariant = { λ d. (slice_get (T.state d.tags).tags 0 ≡ Some (R.book d.rules).plain)
        × AreRules (R.book d.rules) (T.state d.tags).tags (C.state d.store).sets };
}

impl<T: TagTable<Tag = u32>, C: RuleStore, R: Rules<Tag = u32> + Drop> Desk<T, C, R> {
    /// What is asked at these words of the pc, of the first operand and of memory, where they are words of tags.
    fn ask(&mut self, words: (u32, u32, u32)) -> Option<Result<OutWords, AskEnd>> {
        let (pc, t1, tm) = words;
        let len = self.tags.len();
        if pc >= len || t1 >= len || tm >= len {
            return None;
        }
        let words = InWords {
            pc,
            ci: 0,
            t1,
            t2: 0,
            tm,
        };
        Some(ask(
            &mut self.tags,
            &mut self.store,
            &mut self.rules,
            Group::Add,
            words,
        ))
    }

    /// Gives a tag a word.
    fn number(&mut self, tag: u32) -> Option<u32> {
        self.tags.intern(tag).ok()
    }
}

type AskingDesk<'a> = Desk<Interner<u32>, RuleCache, Asking<'a, Toy>>;

/// The desk of the rules, with up to 7 tags, of which the plain one is there, and 2 kept rules.
fn desk_of<'a>(alloc: Global, rules: Asking<'a, Toy>) -> Result<AskingDesk<'a>, Fail> {
    let mut tags: Interner<u32> = Interner::made(alloc, 7)?;
    let plain = rules.plain();
    if tags.intern(plain).is_err() {
        return Err(Fail::from("no memory"));
    }
    let store = RuleCache::made(alloc, 1, 2)?;
    Ok(Desk { tags, store, rules })
}

/// Words of the pc, of the first operand and of memory; the words that are answered or why there are none; how many tags
/// have words then, and how often the rule was asked.
type Row = ((u32, u32, u32), Result<(u32, u32), AskEnd>, u32, u64);

/// Questions in order. The words 0 to 3 are those of the tags 5, 7, 9 and 8.
const ROWS: &[Row] = &[
    // the outputs have the tags 95 and 3
    ((0, 1, 0), Ok((4, 5)), 6, 1),
    // the rule is kept, also for another tag of memory
    ((0, 1, 0), Ok((4, 5)), 6, 1),
    ((0, 1, 3), Ok((4, 5)), 6, 1),
    // what is refused is asked anew
    ((0, 2, 0), Err(AskEnd::Stopped(REFUSED)), 6, 2),
    ((0, 2, 0), Err(AskEnd::Stopped(REFUSED)), 6, 3),
    // 93 would have word 6, and 2 has no room
    ((1, 3, 0), Err(AskEnd::TagsOut), 6, 4),
    ((1, 3, 0), Err(AskEnd::TagsOut), 6, 5),
    // 93 has word 6, and 3 has one
    ((1, 1, 0), Ok((6, 5)), 7, 6),
    // 92 has no room
    ((3, 1, 0), Err(AskEnd::TagsOut), 7, 7),
    ((0, 1, 1), Ok((4, 5)), 7, 7),
];

/// The place of the first question that is answered otherwise, or leaves others tags or another count of askings.
fn first_wrong<T: TagTable<Tag = u32>, C: RuleStore, R: Rules<Tag = u32> + Drop>(
    desk: &mut Desk<T, C, R>,
    policy: &Toy,
) -> Option<usize> {
    for (at, row) in ROWS.iter().enumerate() {
        if !is_answered(desk, policy, row) {
            return Some(at);
        }
    }
    None
}

/// Whether a question is answered so, and leaves so many tags and askings.
fn is_answered<T: TagTable<Tag = u32>, C: RuleStore, R: Rules<Tag = u32> + Drop>(
    desk: &mut Desk<T, C, R>,
    policy: &Toy,
    &(words, answer, len, asked): &Row,
) -> bool {
    let answer = answer.map(|(pc, written)| OutWords {
        pc,
        result: written,
    });
    desk.ask(words) == Some(answer) && desk.tags.len() == len && policy.asked.get() == asked
}

#[test]
fn questions_in_order(rt: HostRuntime) -> Result<(), Fail> {
    let policy = Toy::new(3);
    let masks = Masks::of(&policy);
    let mut desk = desk_of(rt.alloc(), Asking::new(&policy, &masks))?;
    for (tag, word) in [(7, 1), (9, 2), (8, 3)] {
        assert!(rt; desk.number(tag) == Some(word));
    }
    assert_eq!(rt; first_wrong(&mut desk, &policy), None);
    assert_eq!(rt; desk.store.hits(), 3);
    assert_eq!(rt; desk.store.misses(), 7);
    Ok(())
}
