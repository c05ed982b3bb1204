//! Values stated by the rules of heap safety: a table of rules, and two services with their refusals.

use crate::refusals::refused;
use heap_policy::{Content, Heap, HeapTag};
use policy_trait::{
    Answer, Args, Ins, Outs, Part, Plan, PlanEnd, Policy, Refused, Rest, Why, Words,
};
use rv_decode::Group;
use std::alloc::Global;
use std::test::Fail;

const VAL: HeapTag = HeapTag::Val;

const FREE: HeapTag = HeapTag::Free;

/// A pointer to block 5, and one to another block.
const PTR: HeapTag = HeapTag::Ptr(5);

const OTHER: HeapTag = HeapTag::Ptr(6);

/// A word outside the heap region with a value, and one with a pointer.
const STATIC: HeapTag = HeapTag::Static(Content::Val);

const STATIC_PTR: HeapTag = HeapTag::Static(Content::Ptr(6));

/// A word of block 5 with a value, and one with a pointer to another block.
const CELL: HeapTag = HeapTag::Cell(5, Content::Val);

const CELL_PTR: HeapTag = HeapTag::Cell(5, Content::Ptr(6));

/// A word of another block.
const OTHER_CELL: HeapTag = HeapTag::Cell(6, Content::Val);

/// The first address of the heap region in each test, and its bytes: eight words.
const BASE: u32 = 64;

const BYTES: u32 = 32;

/// The numbers of the services.
const MALLOC: u32 = 48;

const TAKE_BACK: u32 = 49;

const NOT_LIVE: PlanEnd = PlanEnd::Refused(Refused {
    part: Part::Heap,
    why: Why::NotLive,
});

const ARGS: PlanEnd = PlanEnd::Refused(Refused {
    part: Part::Heap,
    why: Why::Args,
});

/// A rule: group, first and second operand, memory word, and the result where that is allowed.
type Row = (Group, HeapTag, HeapTag, HeapTag, Option<HeapTag>);

/// Groups that take any operands.
const GOES_ON: &[Row] = &[
    (Group::Const, FREE, FREE, FREE, Some(VAL)),
    (Group::Here, FREE, FREE, FREE, Some(VAL)),
    (Group::Jal, FREE, FREE, FREE, Some(VAL)),
    (Group::Fence, FREE, FREE, FREE, Some(VAL)),
    (Group::Break, FREE, FREE, FREE, Some(VAL)),
    (Group::Branch, FREE, FREE, FREE, Some(VAL)),
    (Group::Branch, PTR, OTHER, FREE, Some(VAL)),
];

/// Groups that take the first operand as a value.
const FIRST: &[Row] = &[
    (Group::Jalr, VAL, FREE, FREE, Some(VAL)),
    (Group::Jalr, PTR, VAL, VAL, None),
    (Group::Jalr, STATIC, VAL, VAL, None),
    (Group::AluImm, VAL, FREE, FREE, Some(VAL)),
    (Group::AluImm, PTR, VAL, VAL, None),
    (Group::AluImm, FREE, VAL, VAL, None),
];

/// Groups that move a register, or a pointer by a number.
const MOVED: &[Row] = &[
    (Group::Move, VAL, FREE, FREE, Some(VAL)),
    (Group::Move, PTR, FREE, FREE, Some(PTR)),
    (Group::Move, STATIC, VAL, VAL, None),
    (Group::Move, CELL, VAL, VAL, None),
    (Group::Move, FREE, VAL, VAL, None),
    (Group::AddImm, VAL, FREE, FREE, Some(VAL)),
    (Group::AddImm, PTR, FREE, FREE, Some(PTR)),
    (Group::AddImm, CELL_PTR, VAL, VAL, None),
];

/// Loads of words and of parts.
const LOADS: &[Row] = &[
    (Group::LoadWord, VAL, FREE, STATIC, Some(VAL)),
    (Group::LoadWord, VAL, FREE, STATIC_PTR, Some(OTHER)),
    (Group::LoadWord, PTR, FREE, CELL, Some(VAL)),
    (Group::LoadWord, PTR, FREE, CELL_PTR, Some(OTHER)),
    (Group::LoadWord, VAL, VAL, CELL, None),
    (Group::LoadWord, VAL, VAL, FREE, None),
    (Group::LoadWord, PTR, VAL, STATIC, None),
    (Group::LoadWord, PTR, VAL, OTHER_CELL, None),
    (Group::LoadWord, PTR, VAL, FREE, None),
    (Group::LoadWord, FREE, VAL, FREE, None),
    (Group::LoadPart, VAL, FREE, STATIC_PTR, Some(VAL)),
    (Group::LoadPart, PTR, FREE, CELL_PTR, Some(VAL)),
    (Group::LoadPart, VAL, VAL, CELL, None),
    (Group::LoadPart, PTR, VAL, STATIC, None),
    (Group::LoadPart, PTR, VAL, OTHER_CELL, None),
    (Group::LoadPart, PTR, VAL, FREE, None),
];

/// Stores of words and of parts.
const STORES: &[Row] = &[
    (Group::StoreWord, VAL, VAL, STATIC_PTR, Some(STATIC)),
    (Group::StoreWord, VAL, OTHER, STATIC, Some(STATIC_PTR)),
    (Group::StoreWord, PTR, VAL, CELL_PTR, Some(CELL)),
    (Group::StoreWord, PTR, OTHER, CELL, Some(CELL_PTR)),
    (Group::StoreWord, PTR, STATIC, CELL, None),
    (Group::StoreWord, VAL, FREE, STATIC, None),
    (Group::StoreWord, VAL, VAL, CELL, None),
    (Group::StoreWord, VAL, VAL, FREE, None),
    (Group::StoreWord, PTR, VAL, STATIC, None),
    (Group::StoreWord, PTR, VAL, OTHER_CELL, None),
    (Group::StoreWord, PTR, VAL, FREE, None),
    (Group::StorePart, VAL, FREE, STATIC_PTR, Some(STATIC)),
    (Group::StorePart, PTR, OTHER, CELL_PTR, Some(CELL)),
    (Group::StorePart, VAL, VAL, CELL, None),
    (Group::StorePart, PTR, VAL, STATIC, None),
    (Group::StorePart, PTR, VAL, OTHER_CELL, None),
    (Group::StorePart, PTR, VAL, FREE, None),
];

/// Sums.
const SUMS: &[Row] = &[
    (Group::Add, VAL, VAL, FREE, Some(VAL)),
    (Group::Add, PTR, VAL, FREE, Some(PTR)),
    (Group::Add, VAL, PTR, FREE, Some(PTR)),
    (Group::Add, PTR, PTR, FREE, None),
    (Group::Add, PTR, OTHER, FREE, None),
    (Group::Add, VAL, STATIC, FREE, None),
    (Group::Add, FREE, VAL, FREE, None),
];

/// Differences.
const DIFFERENCES: &[Row] = &[
    (Group::Sub, VAL, VAL, FREE, Some(VAL)),
    (Group::Sub, PTR, VAL, FREE, Some(PTR)),
    (Group::Sub, PTR, PTR, FREE, Some(VAL)),
    (Group::Sub, PTR, OTHER, FREE, None),
    (Group::Sub, VAL, PTR, FREE, None),
    (Group::Sub, PTR, CELL, FREE, None),
    (Group::Sub, FREE, VAL, FREE, None),
];

/// Groups that take both operands as values.
const BOTH: &[Row] = &[
    (Group::Alu, VAL, VAL, FREE, Some(VAL)),
    (Group::Alu, PTR, VAL, VAL, None),
    (Group::Alu, VAL, PTR, VAL, None),
    (Group::Alu, PTR, PTR, VAL, None),
    (Group::Exit, VAL, VAL, FREE, Some(VAL)),
    (Group::Exit, PTR, VAL, VAL, None),
    (Group::Exit, VAL, PTR, VAL, None),
    (Group::Put, VAL, VAL, FREE, Some(VAL)),
    (Group::Put, PTR, VAL, VAL, None),
    (Group::Put, VAL, PTR, VAL, None),
    (Group::Put, VAL, FREE, VAL, None),
    (Group::Put, STATIC, VAL, VAL, None),
];

/// Groups that take the second operand as a value.
const SECOND: &[Row] = &[
    (Group::Get, PTR, VAL, FREE, Some(VAL)),
    (Group::Get, FREE, VAL, FREE, Some(VAL)),
    (Group::Get, VAL, PTR, VAL, None),
    (Group::Get, VAL, STATIC, VAL, None),
    (Group::Call, PTR, VAL, FREE, Some(VAL)),
    (Group::Call, FREE, VAL, FREE, Some(VAL)),
    (Group::Call, VAL, PTR, VAL, None),
    (Group::Call, VAL, FREE, VAL, None),
];

/// The rows of every group.
const RULES: &[&[Row]] = &[
    GOES_ON,
    FIRST,
    MOVED,
    LOADS,
    STORES,
    SUMS,
    DIFFERENCES,
    BOTH,
    SECOND,
];

#[test]
fn rules_of_every_group(rt: HostRuntime) {
    let heap = heap(rt.alloc());
    for rows in RULES {
        for &row in *rows {
            assert!(rt; is_kept(&heap, row));
        }
    }
}

/// Whether the policy answers this at an instruction outside the heap region, whatever the pc's tag is, and executes no other
/// word.
fn is_kept(heap: &Heap, row: Row) -> bool {
    let (group, t1, t2, tm, result) = row;
    let refusal = Err(refused(Part::Heap, Why::Rule(group)));
    let answer = match result {
        Some(result) => Ok(Outs { pc: VAL, result }),
        None => refusal,
    };
    let rule = |pc, ci| heap.rule(group, Ins { pc, ci, t1, t2, tm });
    rule(VAL, STATIC) == answer
        && rule(PTR, STATIC_PTR) == answer
        && rule(VAL, CELL) == refusal
        && rule(VAL, FREE) == refusal
        && rule(STATIC, VAL) == refusal
        && rule(STATIC, PTR) == refusal
}

/// The answer of a service with its tag, if there is one, or the refusal.
type Answered = Result<Option<(u32, HeapTag)>, PlanEnd>;

/// Calls of the services, one after another: the service, the value and the tag of a0, and what is answered. Each call that
/// has a plan is carried out.
const CALLS: &[(u32, u32, HeapTag, Answered)] = &[
    // whole words, at least one, one block behind the other
    (MALLOC, 0, VAL, Ok(Some((64, HeapTag::Ptr(0))))),
    (MALLOC, 4, VAL, Ok(Some((68, HeapTag::Ptr(1))))),
    (MALLOC, 5, VAL, Ok(Some((72, HeapTag::Ptr(2))))),
    (MALLOC, 16, VAL, Ok(Some((80, HeapTag::Ptr(3))))),
    // none fits, which takes no number
    (MALLOC, 0, VAL, Ok(Some((0, VAL)))),
    (MALLOC, 4_294_967_295, VAL, Ok(Some((0, VAL)))),
    // the number of bytes is a value
    (MALLOC, 4, HeapTag::Ptr(0), Err(ARGS)),
    (MALLOC, 4, STATIC, Err(ARGS)),
    (MALLOC, 4, FREE, Err(ARGS)),
    // no pointer to a block, not its first address, no block of that number
    (TAKE_BACK, 72, VAL, Err(NOT_LIVE)),
    (TAKE_BACK, 72, HeapTag::Cell(2, Content::Val), Err(NOT_LIVE)),
    (
        TAKE_BACK,
        72,
        HeapTag::Static(Content::Ptr(2)),
        Err(NOT_LIVE),
    ),
    (TAKE_BACK, 76, HeapTag::Ptr(2), Err(NOT_LIVE)),
    (TAKE_BACK, 68, HeapTag::Ptr(2), Err(NOT_LIVE)),
    (TAKE_BACK, 80, HeapTag::Ptr(2), Err(NOT_LIVE)),
    (TAKE_BACK, 72, HeapTag::Ptr(4), Err(NOT_LIVE)),
    // taken back once
    (TAKE_BACK, 72, HeapTag::Ptr(2), Ok(None)),
    (TAKE_BACK, 72, HeapTag::Ptr(2), Err(NOT_LIVE)),
    // three words do not fit into the gap, and two do, as a new block
    (MALLOC, 9, VAL, Ok(Some((0, VAL)))),
    (MALLOC, 8, VAL, Ok(Some((72, HeapTag::Ptr(4))))),
    (TAKE_BACK, 72, HeapTag::Ptr(2), Err(NOT_LIVE)),
    // the lowest place of three words is behind a gap of one
    (TAKE_BACK, 64, HeapTag::Ptr(0), Ok(None)),
    (TAKE_BACK, 80, HeapTag::Ptr(3), Ok(None)),
    (MALLOC, 12, VAL, Ok(Some((80, HeapTag::Ptr(5))))),
    (MALLOC, 1, VAL, Ok(Some((64, HeapTag::Ptr(6))))),
    (MALLOC, 4, VAL, Ok(Some((92, HeapTag::Ptr(7))))),
    (TAKE_BACK, 80, HeapTag::Ptr(3), Err(NOT_LIVE)),
    (TAKE_BACK, 68, HeapTag::Ptr(1), Ok(None)),
    (TAKE_BACK, 92, HeapTag::Ptr(7), Ok(None)),
];

/// What is listed after these calls, by place: number, base and words.
const LISTED: &[(u32, Option<(u32, u32, u32)>)] = &[
    (0, Some((4, 72, 2))),
    (1, Some((5, 80, 3))),
    (2, Some((6, 64, 1))),
    (3, None),
    (4_294_967_295, None),
];

/// What a service answers that is carried out where it has a plan.
fn answered(heap: &mut Heap, service: u32, a0: u32, t0: HeapTag) -> Result<Answered, Fail> {
    match carried_out(heap, service, a0, t0)? {
        Ok((plan, _)) => match plan.answer {
            Some(
                Answer {
                    value,
                    tag,
                    rest: Rest::Plain,
                },
            ) => Ok(Ok(Some((value, tag)))),
            Some(_) => Err("the rest is plain".into()),
            None => Ok(Ok(None)),
        },
        Err(end) => Ok(Err(end)),
    }
}

#[test]
fn calls_in_their_order(rt: HostRuntime) -> Result<(), Fail> {
    let mut heap = heap(rt.alloc());
    assert!(rt; heap.listed(0).is_none());
    for &(service, a0, t0, answer) in CALLS {
        assert!(rt;
            answered(&mut heap, service, a0, t0)? == answer,
            "{service} of {a0}"
        );
    }
    for &(place, block) in LISTED {
        assert!(rt; heap.listed(place) == block, "at {place}");
    }
    Ok(())
}

#[test]
fn plans_and_the_words_they_retag(rt: HostRuntime) -> Result<(), Fail> {
    let mut heap = heap(rt.alloc());
    let words = Words { base: 64, count: 3 };
    let pointer = HeapTag::Ptr(0);
    let handing_out = Plan {
        service: MALLOC,
        pc: VAL,
        note: 0,
        range: Some(words),
        zero: true,
        answer: Some(Answer {
            value: 64,
            tag: pointer,
            rest: Rest::Plain,
        }),
    };
    let new_cell = HeapTag::Cell(0, Content::Val);
    assert!(rt; carried_out(&mut heap, MALLOC, 12, VAL)? == Ok((handing_out, new_cell)));
    let none = carried_out(&mut heap, MALLOC, 33, VAL)?;
    assert!(rt; none.map(|(plan, _)| (plan.range, plan.zero)) == Ok((None, false)));
    let taking_back = Plan {
        service: TAKE_BACK,
        pc: VAL,
        note: 0,
        range: Some(words),
        zero: true,
        answer: None,
    };
    assert!(rt; carried_out(&mut heap, TAKE_BACK, 64, pointer)? == Ok((taking_back, FREE)));
    Ok(())
}

/// The live blocks at the first four places.
fn listing(heap: &Heap) -> [Option<(u32, u32, u32)>; 4] {
    [
        heap.listed(0),
        heap.listed(1),
        heap.listed(2),
        heap.listed(3),
    ]
}

#[test]
fn services_taken_back(rt: HostRuntime) -> Result<(), Fail> {
    let mut heap = heap(rt.alloc());
    for (base, number) in [(64, 0), (72, 1), (80, 2)] {
        let block = Some((base, HeapTag::Ptr(number)));
        assert!(rt; answered(&mut heap, MALLOC, 8, VAL)? == Ok(block));
    }
    let live = [Some((0, 64, 2)), Some((1, 72, 2)), Some((2, 80, 2)), None];
    // a block that was freed comes back among the others, and one that was handed out goes
    for (service, a0, t0) in [
        (TAKE_BACK, 72, HeapTag::Ptr(1)),
        (TAKE_BACK, 64, HeapTag::Ptr(0)),
        (TAKE_BACK, 80, HeapTag::Ptr(2)),
        (MALLOC, 8, VAL),
        (MALLOC, 12, VAL),
    ] {
        assert!(rt; is_taken_back(&mut heap, service, a0, t0)?);
        assert!(rt; listing(&heap) == live, "{service} of {a0}");
    }
    // and so does its number
    let next = Some((88, HeapTag::Ptr(3)));
    assert!(rt; answered(&mut heap, MALLOC, 8, VAL)? == Ok(next));
    Ok(())
}

/// Whether block after block of the whole region gets these numbers, each but the last taken back before the next.
fn are_numbered(heap: &mut Heap, count: u32) -> Result<bool, Fail> {
    for number in 0..count {
        if number > 0 {
            let last = HeapTag::Ptr(number - 1);
            if answered(heap, TAKE_BACK, BASE, last)? != Ok(None) {
                return Ok(false);
            }
        }
        let block = Some((BASE, HeapTag::Ptr(number)));
        if answered(heap, MALLOC, BYTES, VAL)? != Ok(block) {
            return Ok(false);
        }
    }
    Ok(true)
}

/// Calls as above, of a heap whose last block is live: the arguments are judged first, and a place is sought last.
const SPENT_CALLS: &[(u32, u32, HeapTag, Answered)] = &[
    (MALLOC, 4, PTR, Err(ARGS)),
    (MALLOC, 4, VAL, Err(PlanEnd::Spent)),
    (TAKE_BACK, BASE, HeapTag::Ptr(1_048_575), Ok(None)),
    (MALLOC, 4, VAL, Err(PlanEnd::Spent)),
];

#[test]
fn blocks_are_numbered_until_they_are_spent(rt: HostRuntime) -> Result<(), Fail> {
    let mut heap = heap(rt.alloc());
    assert!(rt; are_numbered(&mut heap, 1_048_576)?);
    for &(service, a0, t0, answer) in SPENT_CALLS {
        assert!(rt;
            answered(&mut heap, service, a0, t0)? == answer,
            "{service} of {a0}"
        );
    }
    assert!(rt; heap.listed(0).is_none());
    Ok(())
}

/// Zeroing by another policy's service: the word's tag, and its new one where the heap consents.
const WIPED: &[(HeapTag, Option<HeapTag>)] = &[
    (STATIC, Some(STATIC)),
    (STATIC_PTR, Some(STATIC)),
    (CELL, Some(CELL)),
    (CELL_PTR, Some(CELL)),
    (FREE, Some(FREE)),
    (VAL, None),
    (PTR, None),
];

#[test]
fn words_zeroed_by_another_policy(rt: HostRuntime) {
    let heap = heap(rt.alloc());
    for &(old, new) in WIPED {
        let expected = new.ok_or(refused(Part::Heap, Why::Consent));
        assert!(rt; heap.wipe(PTR, old) == expected);
    }
}

/// The policy of a heap region of eight words, before any block was handed out.
fn heap(alloc: Global) -> Heap {
    Heap::new(alloc, BASE, BYTES)
}

/// The plan of a service that finds this value and this tag in a0, in the largest memory, and the new tag of the words of
/// its range. The plan is carried out.
fn carried_out(
    heap: &mut Heap,
    service: u32,
    a0: u32,
    t0: HeapTag,
) -> Result<Result<(Plan<HeapTag>, HeapTag), PlanEnd>, Fail> {
    if !heap.knows(service) {
        return Err("a service of the heap".into());
    }
    let arguments = Args {
        a0,
        a1: 0,
        a2: 0,
        t0,
        t1: VAL,
        t2: VAL,
        ram: 4_294_967_295,
    };
    match heap.plan(service, &arguments, heap.plain()) {
        Ok(plan) => {
            let tag = heap.retag(&plan, PTR).ok().ok_or("no refusal")?;
            heap.commit(&plan)?;
            Ok(Ok((plan, tag)))
        }
        Err(end) => Ok(Err(end)),
    }
}

/// Whether there is a plan of a service that finds this value and this tag in a0. The plan is carried out and taken back.
fn is_taken_back(heap: &mut Heap, service: u32, a0: u32, t0: HeapTag) -> Result<bool, Fail> {
    if !heap.knows(service) {
        return Ok(false);
    }
    let arguments = Args {
        a0,
        a1: 0,
        a2: 0,
        t0,
        t1: VAL,
        t2: VAL,
        ram: 4_294_967_295,
    };
    match heap.plan(service, &arguments, heap.plain()) {
        Ok(plan) => {
            heap.commit(&plan)?;
            heap.uncommit(&plan);
            Ok(true)
        }
        Err(_) => Ok(false),
    }
}
