//! `Record`: what a turn replaced.

ghost use Rattle.std.specs.Prelude.{◌≡◌, Some, IfOk, option_copied};
ghost use Rattle.std.specs.Borrow.{sem};
ghost use Rattle.undo_log.specs.Past.{bare};

use policy_trait::Plan;
use std::alloc::{AllocError, Global};
use std::marker::Model;

/// What stood at a place before a turn wrote there: in a register, or in a word of memory.
#[derive(Clone, Copy, PartialEq, Eq)]
pub struct Replaced<T> {
    /// Which place it is: the number of a register, 1 to 31, or the address of a word, a multiple of 4.
    pub place: u32,
    /// The value that stood there.
    pub value: u32,
    /// The tag that stood there.
    pub tag: T,
}

/// Whose turn it was, and where it began.
#[derive(Clone, Copy, PartialEq, Eq)]
pub struct TurnStart<T> {
    /// The hart whose turn it was, from 0 on.
    pub hart: u32,
    /// The hart's pc before the turn, the address of a word.
    pub pc: u32,
    /// The tag of the pc before the turn.
    pub pc_tag: T,
}

/// The words of memory that a service replaced. Contracts see them as a list.
#[derive(Drop)]
pub(crate) struct OldWords<T: Copy> {
    words: Vec<Replaced<T>>,
}

impl<T: Copy> Model for OldWords<T> {
    ghost use Rattle.std.specs.Prelude.{List};
    ghost use Rattle.undo_log.specs.declared.record.Replaced.{Replaced};

    ghost Value = { List (Replaced T) };

    ghost view = { λ old. old.words.items };
}

impl<T: Copy> OldWords<T> {
    ghost use Rattle.undo_log.specs.Lending.{LendsWords};

    /// The words, to be read.
    fn words(&self) -> &[Replaced<T>]
        ensures value { result.now ≡ self.now }
    {
        self.words.as_slice()
    }

    /// The words, to be changed in their places.
    pub(crate) fn words_mut(&mut self) -> &mut [Replaced<T>]
        ensures* writes_back { sem 𝓛 (LendsWords T.row self.entry result) }
        ensures value { result.now ≡ self.old }
    {
        self.words.as_mut_slice()
    }
}

/// What a policy's service replaced, and the plan that it committed.
#[derive(Drop)]
pub(crate) struct Served<T: Copy, U: Copy> {
    pub(crate) answered: Option<Replaced<T>>,
    pub(crate) range: OldWords<T>,
    plan: Plan<U>,
}

/// What a turn replaced: an instruction one place at most. What a service replaced stands in memory of its own, so that the records of
/// the many turns without one stay small.
#[derive(Drop)]
pub(crate) enum Old<T: Copy, U: Copy> {
    Nothing,
    Register(Replaced<T>),
    Word(Replaced<T>),
    Service(Box<Served<T, U>>),
}

/// What a turn replaced, and what it read and committed: enough to take it back. `T` is the engine's kind of tag, and
/// `U` the policy's. Contracts see all that it tells.
#[derive(Drop)]
pub struct Record<T: Copy, U: Copy> {
    pub(crate) start: TurnStart<T>,
    // Between the two, where it takes no more than the gap that is there.
    fed: Option<u8>,
    pub(crate) replaced: Old<T, U>,
}

impl<T: Copy, U: Copy> Model for Record<T, U> {
    ghost use Rattle.undo_log.specs.Layout.{old_plan, old_range, old_reg, old_word};
    ghost use Rattle.undo_log.specs.Past.{Record};

    ghost Value = { Record T U };

    ghost view = { λ made. record {
      hart = made.start.hart;
      pc = made.start.pc;
      pc_tag = made.start.pc_tag;
      reg = old_reg made.replaced;
      word = old_word made.replaced;
      range = old_range made.replaced;
      plan = old_plan made.replaced;
      fed = made.fed;
    } };
}

impl<T: Copy, U: Copy> Record<T, U> {
    /// The record of a turn that replaced nothing but the pc.
    #[inline(always)]
    pub fn bare(start: TurnStart<T>) -> Record<T, U>
        ensures { result ≡ bare start }
    {
        Record {
            start,
            fed: None,
            replaced: Old::Nothing,
        }
    }

    /// The record of a turn that replaced the pc and this register, `None` where it replaced none, and read this byte of the feed,
    /// `None` where it read none.
    #[inline(always)]
    pub fn of_register(
        start: TurnStart<T>,
        reg: Option<Replaced<T>>,
        fed: Option<u8>,
    ) -> Record<T, U>
        ensures { result ≡ record (bare start) { reg = reg; fed = fed } }
    {
        let replaced = match reg {
            Some(reg) => Old::Register(reg),
            None => Old::Nothing,
        };
        Record {
            start,
            fed,
            replaced,
        }
    }

    /// The record of a turn that replaced the pc and this word of memory.
    #[inline(always)]
    pub fn of_word(start: TurnStart<T>, word: Replaced<T>) -> Record<T, U>
        ensures { result ≡ record (bare start) { word = Some word } }
    {
        Record {
            start,
            fed: None,
            replaced: Old::Word(word),
        }
    }

    /// The record of a turn that carried out a policy's service by this plan, and replaced this register, if any, and these words of
    /// memory. The only error is running out of memory.
    pub fn of_service(
        alloc: Global,
        start: TurnStart<T>,
        answered: Option<Replaced<T>>,
        words: Vec<Replaced<T>>,
        plan: &Plan<U>,
    ) -> Result<Record<T, U>, AllocError>
        ensures { IfOk result (λ made. made
            ≡ record (bare start) { reg = answered; range = words.items; plan = Some plan.now }) }
    {
        let served = Served {
            answered,
            range: OldWords { words },
            plan: *plan,
        };
        Ok(Record {
            start,
            fed: None,
            replaced: Old::Service(Box::new(alloc, served)?),
        })
    }

    /// The hart whose turn it was, from 0 on.
    pub fn hart(&self) -> u32
        ensures { result ≡ self.now.hart }
    {
        self.start.hart
    }

    /// The hart's pc before the turn, the address of a word.
    pub fn pc(&self) -> u32
        ensures { result ≡ self.now.pc }
    {
        self.start.pc
    }

    /// The tag of the pc before the turn.
    pub fn pc_tag(&self) -> T
        ensures { result ≡ self.now.pc_tag }
    {
        self.start.pc_tag
    }

    /// The register that the turn wrote, as it was before; `None` where it wrote none.
    pub fn reg(&self) -> Option<Replaced<T>>
        ensures { result ≡ self.now.reg }
    {
        match &self.replaced {
            Old::Register(reg) => Some(*reg),
            Old::Service(served) => served.answered,
            Old::Nothing | Old::Word(_) => None,
        }
    }

    /// The word that a store wrote, as it was before; `None` where there was no store.
    pub fn word(&self) -> Option<Replaced<T>>
        ensures { result ≡ self.now.word }
    {
        match &self.replaced {
            Old::Word(word) => Some(*word),
            Old::Nothing | Old::Register(_) | Old::Service(_) => None,
        }
    }

    /// The words that a service wrote, as they were before; empty where no service wrote any.
    pub fn range(&self) -> &[Replaced<T>]
        ensures { result.now ≡ self.now.range }
    {
        match &self.replaced {
            Old::Service(served) => served.range.words(),
            Old::Nothing | Old::Register(_) | Old::Word(_) => &[],
        }
    }

    /// The plan that the policy committed; `None` where no service was carried out.
    pub fn plan(&self) -> Option<&Plan<U>>
        ensures { option_copied result ≡ self.now.plan }
    {
        match &self.replaced {
            Old::Service(served) => Some(&served.plan),
            Old::Nothing | Old::Register(_) | Old::Word(_) => None,
        }
    }

    /// The byte of the feed that was read; `None` where none was.
    pub fn fed(&self) -> Option<u8>
        ensures { result ≡ self.now.fed }
    {
        self.fed
    }
}
