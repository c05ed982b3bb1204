//! What an instruction does, in the form that a turn carries.

ghost use Rattle.std.specs.Prelude.{◌≡◌, ℕ, ◌%◌, OnOk, if◌then◌else◌};
ghost use Rattle.std.specs.Option.{unwrap_or};
ghost use Rattle.std.specs.Result.{result_err};
ghost use Rattle.rv_step.specs.Actions.{IsAccess, access_by, effect_by, is_store, touches, width_by};
ghost use Rattle.rv_step.specs.Checks.{access_fault, first_fault, alignment_fault, range_fault, GoesOnToWord, IsSafe};
ghost use Rattle.rv_step.specs.Effects.{jumps, passes};

use crate::accesses::{Access, Width};
use crate::checks::{check_next, passes_end};
use crate::effects::Effect;
use crate::faults::Fault;
use std::marker::Model;

/// What the number of an action is used for.
#[derive(Clone, Copy, PartialEq, Eq)]
pub(crate) enum Use {
    /// Nothing: the instruction only goes on or branches, and the number is 0.
    Nothing,
    /// It is the value for rd.
    Value,
    /// It is the address of a load of one byte, whose value is sign-extended; the others likewise.
    LoadByte,
    LoadHalf,
    LoadWord,
    /// It is the address of a load of one byte, whose value is not sign-extended.
    LoadByteUnsigned,
    LoadHalfUnsigned,
    /// It is the address of a store of one byte; the others likewise.
    StoreByte,
    StoreHalf,
    StoreWord,
}

/// The effect of one instruction, before anything of it is carried out, in the form that a turn carries: contracts see it as an
/// `Effect`. The value for rd and the address of an access are one number, since no instruction has both.
#[derive(Drop)]
pub struct Action {
    next: u32,
    number: u32,
    // what a store stores, 0 where nothing is stored
    stored: u32,
    used: Use,
    taken: bool,
}

impl Model for Action {
    ghost use Rattle.rv_step.specs.Actions.{IsZeroIfUnused, effect_by};
    ghost use Rattle.rv_step.specs.declared.effects.Effect.{Effect};

    ghost Value = { Effect };

    ghost view = { λ a. effect_by a.used a.number a.stored a.next a.taken };

    ghost invariant = { λ a. IsZeroIfUnused a.used a.number };
}

// What makes an action has hints alone: were it always inlined, in some fifty arms, what looks ahead, and an engine's turn with it,
// would be too large for the compiler to inline, and that costs a turn much more.
impl Action {
    /// Going on to the instruction behind `pc`, and nothing else: what ECALL and EBREAK do here (RISC-V unprivileged ISA; what a
    /// service does beside that is not an instruction's).
    #[inline]
    pub fn passing(pc: u32) -> Action
        ensures { result ≡ passes pc }
    {
        Action {
            next: pc.wrapping_add(4),
            number: 0,
            stored: 0,
            used: Use::Nothing,
            taken: false,
        }
    }

    /// Gives rd this value, and makes no access.
    #[inline]
    pub(crate) fn compute(&mut self, value: u32)
        ensures { self.new ≡ effect_by Use.Value value 0 self.old.next self.old.taken }
    {
        self.number = value;
        self.stored = 0;
        self.used = Use::Value;
    }

    /// Makes an access, of this kind and at this address.
    #[inline]
    pub(crate) fn touch(&mut self, used: Use, addr: u32, stored: u32)
        requires { IsAccess used }
        ensures { self.new ≡ effect_by used addr stored self.old.next self.old.taken }
    {
        self.number = addr;
        self.stored = stored;
        self.used = used;
    }

    /// Jumps to the target, with the place behind the jump, which is at `pc`, for rd.
    #[inline]
    pub(crate) fn jump_to(&mut self, pc: u32, target: u32)
        ensures { self.new ≡ jumps pc target }
    {
        self.compute(pc.wrapping_add(4));
        self.next = target;
        self.taken = true;
    }

    /// Goes to the target if the branch is taken.
    #[inline]
    pub(crate) fn branch(&mut self, target: u32, taken: bool)
        ensures { self.new ≡ record self.old
            { next = if taken then target else self.old.next; taken = taken } }
    {
        if taken {
            self.next = target;
        }
        self.taken = taken;
    }

    /// The pc of the next instruction.
    #[inline(always)]
    pub fn next(&self) -> u32
        ensures { result ≡ self.now.next }
    {
        self.next
    }

    /// The value for rd that the instruction computes, 0 where it computes none. That of a load comes from memory.
    #[inline(always)]
    pub fn value(&self) -> u32
        ensures { result ≡ unwrap_or self.now.value 0 }
    {
        match self.used {
            Use::Nothing | Use::Value => self.number,
            _ => 0,
        }
    }

    /// Whether the instruction makes an access.
    #[inline(always)]
    pub fn has_access(&self) -> bool
        ensures { result ≡ touches self.now.access }
    {
        is_access(self.used)
    }

    /// The access to memory. It has a hint alone to inline: what looks ahead would be too large with all of it.
    #[inline]
    pub fn access(&self) -> Access
        ensures { result ≡ self.now.access }
    {
        match self.used {
            Use::Nothing | Use::Value => Access::None,
            Use::LoadByte => load(self.number, Width::Byte, true),
            Use::LoadHalf => load(self.number, Width::Half, true),
            Use::LoadWord => load(self.number, Width::Full, false),
            Use::LoadByteUnsigned => load(self.number, Width::Byte, false),
            Use::LoadHalfUnsigned => load(self.number, Width::Half, false),
            Use::StoreByte => store(self.number, Width::Byte, self.stored),
            Use::StoreHalf => store(self.number, Width::Half, self.stored),
            Use::StoreWord => store(self.number, Width::Full, self.stored),
        }
    }

    /// The effect.
    #[inline(always)]
    pub fn effect(&self) -> Effect
        ensures { result ≡ self.now }
    {
        Effect {
            next: self.next,
            value: self.computed(),
            access: self.access(),
            taken: self.taken,
        }
    }

    // The value for rd, where the instruction computes one.
    fn computed(&self) -> Option<u32>
        ensures { result ≡ self.now.value }
    {
        match self.used {
            Use::Value => Some(self.number),
            _ => None,
        }
    }

    /// The first fault of the effect in a memory of `ram` bytes: alignment of the access, then its range, then
    /// alignment of the jump. Where it doesn't jump, its next pc has to be a multiple of 4, as it is behind a pc that is one: so
    /// nobody needs to ask whether it jumps.
    #[inline(always)]
    pub fn check(&self, ram: u32) -> Result<(), Fault>
        requires { GoesOnToWord self.now }
        ensures first { result_err result ≡ first_fault self.now ram }
        ensures safe { OnOk result (IsSafe ram self.now) }
        ensures to_word { OnOk result (self.now.next % 4 ≡ 0) }
    {
        if self.has_access() {
            check_touch(self.used, self.number, ram)?;
        }
        check_next(self)
    }
}

// The fault of an access of this kind at the address, in a memory of `ram` bytes: alignment, then range. It is told by the use alone,
// since the access would be made anew of it at every turn.
#[inline(always)]
#[tactic(auto, using(crate::proofs::TouchLemmas::touch_fault_is))]
fn check_touch(used: Use, addr: u32, ram: u32) -> Result<(), Fault>
    requires { IsAccess used }
    ensures { (stored : ℕ) → result_err result ≡ access_fault (access_by used addr stored) ram }
{
    let width = width_of(used);
    if addr % width.bytes() != 0 {
        return Err(alignment_fault(used, addr));
    }
    if passes_end(addr, width, ram) {
        return Err(range_fault(used, addr));
    }
    Ok(())
}

// How much an access of this kind touches.
#[inline(always)]
fn width_of(used: Use) -> Width
    ensures { result ≡ width_by used }
{
    match used {
        Use::LoadHalf | Use::LoadHalfUnsigned | Use::StoreHalf => Width::Half,
        Use::LoadWord | Use::StoreWord => Width::Full,
        _ => Width::Byte,
    }
}

// The fault of an access of this kind whose address is no multiple of its width.
#[inline(always)]
fn alignment_fault(used: Use, addr: u32) -> Fault
    ensures { result ≡ alignment_fault used addr }
{
    if is_store(used) {
        Fault::StoreAlign(addr)
    } else {
        Fault::LoadAlign(addr)
    }
}

// The fault of an access of this kind that passes the end of memory.
#[inline(always)]
fn range_fault(used: Use, addr: u32) -> Fault
    ensures { result ≡ range_fault used addr }
{
    if is_store(used) {
        Fault::StoreRange(addr)
    } else {
        Fault::LoadRange(addr)
    }
}

// Whether a number that is used so is the address of a store.
#[inline(always)]
fn is_store(used: Use) -> bool
    ensures { result ≡ is_store used }
{
    used as u8 >= Use::StoreByte as u8
}

// A load from the address.
#[inline(always)]
fn load(addr: u32, width: Width, signed: bool) -> Access
    ensures { result ≡ Access.Load addr width signed }
{
    Access::Load {
        addr,
        width,
        signed,
    }
}

// A store to the address.
#[inline(always)]
fn store(addr: u32, width: Width, value: u32) -> Access
    ensures { result ≡ Access.Store addr width value }
{
    Access::Store { addr, width, value }
}

// Whether a number that is used so is an address. Uses stand in this order, so that one comparison tells it: a `match` would be drawn
// together with the next one on the same use, into a table of jumps that every turn takes.
#[inline(always)]
fn is_access(used: Use) -> bool
    ensures { (addr stored : ℕ) → result ≡ touches (access_by used addr stored) }
{
    used as u8 > Use::Value as u8
}
