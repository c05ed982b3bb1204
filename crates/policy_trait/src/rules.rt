//! What a rule is asked with, what it gives, and why a policy refuses.

ghost use Rattle.std.specs.Prelude.{◌≡◌};

use rv_decode::Group;
use std::marker::Model;

/// The tags that a rule is asked with: of the pc, of the instruction's word, of the two operands, and of the memory
/// word. An operand that the instruction does not have is the policy's plain tag.
#[derive(Clone, Copy, PartialEq, Eq)]
pub struct Ins<T> {
    /// The tag of the pc.
    pub pc: T,
    /// The tag of the word that holds the instruction ("current instruction").
    pub ci: T,
    /// The tag of the first operand.
    pub t1: T,
    /// The tag of the second operand.
    pub t2: T,
    /// The tag of the memory word that holds the access.
    pub tm: T,
}

/// Where the five tags stand that a rule is asked with: who is asked reads no more of each than its rule looks at. Contracts see
/// it as the `Ins` of these tags.
#[derive(Drop)]
pub struct InsAt<'a, T> {
    /// Where the tag of the pc stands; the others likewise.
    pub pc: &'a T,
    pub ci: &'a T,
    pub t1: &'a T,
    pub t2: &'a T,
    pub tm: &'a T,
}

impl<'a, T> Model for InsAt<'a, T> {
    ghost use Rattle.policy_trait.specs.declared.rules.Ins.{Ins};

    ghost Value = { Ins T };

    ghost view = { λ a. record {
      pc = a.pc.now;
      ci = a.ci.now;
      t1 = a.t1.now;
      t2 = a.t2.now;
      tm = a.tm.now;
    } };
}

impl<'a, T> InsAt<'a, T> {
    /// The inputs whose tags stand there.
    #[inline(always)]
    pub fn new(pc: &'a T, ci: &'a T, t1: &'a T, t2: &'a T, tm: &'a T) -> InsAt<'a, T>
        ensures { result ≡ record {
          pc = pc.now;
          ci = ci.now;
          t1 = t1.now;
          t2 = t2.now;
          tm = tm.now;
        } }
    {
        InsAt { pc, ci, t1, t2, tm }
    }
}

impl<'a, T: Copy> InsAt<'a, T> {
    /// The tags that stand there.
    #[inline(always)]
    pub fn read(&self) -> Ins<T>
        ensures { result ≡ self.now }
    {
        Ins {
            pc: *self.pc,
            ci: *self.ci,
            t1: *self.t1,
            t2: *self.t2,
            tm: *self.tm,
        }
    }
}

/// The tags that an allowed rule gives.
#[derive(Clone, Copy, PartialEq, Eq)]
pub struct Outs<T> {
    /// The next tag of the pc.
    pub pc: T,
    /// The tag of the result: of the register or of the memory word that is written.
    pub result: T,
}

/// Which inputs of a rule a group ignores.
#[derive(Clone, Copy, PartialEq, Eq)]
pub struct Mask {
    /// Whether the pc's tag is ignored; the others likewise.
    pub pc: bool,
    pub ci: bool,
    pub t1: bool,
    pub t2: bool,
    pub tm: bool,
}

/// How a turn looks at values before its rule is asked. A check that fails tells something of the values that it looks at, so a policy is
/// asked for each look.
#[derive(Clone, Copy, PartialEq, Eq)]
pub enum Shape {
    /// The word at the pc is decoded.
    Word,
    /// The address of a load is checked.
    Load,
    /// The address of a store is checked.
    Store,
    /// The target of a jump by register is checked.
    Jump,
    /// The operands of a branch are compared.
    Branch,
    /// The number of the service that an ECALL makes is read.
    Call,
}

/// Who refuses: one of the policies that can be chosen, in canonical order, or an author's own.
#[derive(Clone, Copy, PartialEq, Eq)]
pub enum Part {
    /// Dynamic sealing.
    Seal,
    /// Compartments.
    Comp,
    /// Control-flow integrity.
    Flow,
    /// Heap memory safety.
    Heap,
    /// Secrecy.
    Secret,
    /// An author's own policy, none of these.
    Own,
}

/// Why a policy refuses.
#[derive(Clone, Copy, PartialEq, Eq)]
pub enum Why {
    /// The rule of this group does not allow the tags.
    Rule(Group),
    /// A service's arguments do not have the tags that it needs.
    Args,
    /// A service's range is not one of whole words within memory.
    Range,
    /// A word of a service's range is not the caller's.
    NotOwner,
    /// A sealed value and a key that is not its key.
    WrongKey,
    /// A pointer that is not that of a live block.
    NotLive,
    /// Another policy does not lend an argument to the service.
    Lend,
    /// Another policy does not consent to a word's zeroing.
    Consent,
    /// A look that comes before the rule would tell what may not be told.
    Peek,
}

/// A refusal: which policy, and why.
#[derive(Clone, Copy, PartialEq, Eq)]
pub struct Refused {
    pub part: Part,
    pub why: Why,
}
