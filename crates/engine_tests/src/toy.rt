//! The toy policy, which tests share of what uses a policy.

use policy_trait::{
    Answer, Args, Birth, Ins, Mask, Outs, Part, Plan, PlanEnd, Policy, Refused, Rest, Shape, Why,
    Words,
};
use pump_words::{Line, write_text};
use rv_decode::Group;
use std::alloc::AllocError;
use std::cell::Cell;

/// A word is below this number.
const WORD: u128 = 1 << 32;

/// A policy with the plain tag 5. It counts how often its rule was asked.
///
/// The next tag of the pc is what is left of the pc's tag to 100, and the tag of the result is what is left of the first
/// operand's to 10: a plain operand has a plain result. The rule refuses a first operand with the tag 9, and ignores the
/// other three tags. Nor is a value with the tag 9 lent.
///
/// The one service, 40, notes a0, at most 1000, and answers what was noted before, with the tag of a0. It makes of the tags of the
/// words at 4 and 8 what is left of each to 100, and zeroes the words where a0 is 0. A word with the tag 9 is refused as no live
/// one, and one with the tag 8 as not the caller's.
#[derive(Drop)]
pub(crate) struct Toy {
    /// What the service noted last.
    pub(crate) noted: u32,
    /// How often the rule was asked.
    pub(crate) asked: Cell<u64>,
}

impl Toy {
    /// The policy with that noted, before its rule was asked.
    pub(crate) fn new(noted: u32) -> Toy {
        Toy {
            noted,
            asked: Cell::new(0),
        }
    }
}

impl Policy for Toy {
    ghost use Rattle.std.proofs.Common.{◌≡◌, ℕ, ◌-◌, ◌==◌, ◌%◌, ◌^◌, ◌<◌, min, option_map, unwrap_or, Some, Ok, Err, true, false, codes, if◌then◌else◌, lit≤, refl, rules};
    ghost use Rattle.policy_trait.specs.declared.rules.Part.TheVariants.{Heap};
    ghost use Rattle.policy_trait.specs.declared.rules.Why.TheVariants.{NotLive, NotOwner, Rule};
    ghost use Rattle.policy_trait.specs.declared.services.Rest.TheVariants.{Plain};

    type Tag = u32;

    ghost model = { record {
      plain = λ s. 5;
      rule = λ s g x. if x.t1 == 9 then Err (record { part = Heap; why = Rule g }) else Ok (record { pc = 100 - x.pc; result = 10 - x.t1 });
      ignores = λ s g. record { pc = false; ci = true; t1 = false; t2 = true; tm = true };
      peeks = λ s. false;
      peek = λ s shape first second. Ok tt;
      knows = λ s number. number == 40;
      uses = λ s number. 1;
      lend = λ s tag. if tag == 9 then Err Heap else Ok tt;
      room = λ s. 12;
      plan = λ s number a pc. Ok (record { service = number; pc = pc; note = min a.a0 1000; range = Some (record { base = 4; count = 2 }); zero = a.a0 == 0; answer = Some (record { value = s.noted; tag = a.t0; rest = Plain }) });
      retag = λ s p old. if old == 9 then Err (record { part = Heap; why = NotLive }) else if old == 8 then Err (record { part = Heap; why = NotOwner }) else Ok (100 - old);
      wipe = λ s pc old. Ok pc;
      commit = λ s p. record s { noted = p.note };
      uncommit = λ s p. record s { noted = unwrap_or (option_map (λ x. x.value) p.answer) 0 };
      start_pc = λ s birth. birth.into.bits % 2 ^ 32;
      start_word = λ s birth. birth.owner;
      text = λ s tag. codes "toy";
      listed = λ s place. Some (place, 4, 1);
    } };

    ghost holds = { λ s. s.noted < 2 ^ 32 };

    ghost longest = { 3 };

    fn plain(&self) -> u32 {
        // read for the proof of `valid` alone: what reads the number knows its bound
        let _noted = self.noted;
        5
    }

    fn rule(&self, group: Group, inputs: Ins<u32>) -> Result<Outs<u32>, Refused>
        ensures { result ≡ (if inputs.t1 == 9
            then Err (record { part = Heap; why = Rule group })
            else Ok (record { pc = 100 - inputs.pc; result = 10 - inputs.t1 })) }
    {
        self.asked.set(self.asked.get().saturating_add(1));
        if inputs.t1 == 9 {
            return Err(Refused {
                part: Part::Heap,
                why: Why::Rule(group),
            });
        }
        Ok(Outs {
            pc: 100u32.saturating_sub(inputs.pc),
            result: 10u32.saturating_sub(inputs.t1),
        })
    }

    fn ignores(&self, _group: Group) -> Mask {
        Mask {
            pc: false,
            ci: true,
            t1: false,
            t2: true,
            tm: true,
        }
    }

    fn peeks(&self) -> bool {
        false
    }

    fn peek(&self, _shape: Shape, _first: &u32, _second: &u32) -> Result<(), Refused> {
        Ok(())
    }

    fn knows(&self, number: u32) -> bool {
        number == 40
    }

    fn uses(&self, _number: u32) -> u8 {
        1
    }

    fn lend(&self, tag: u32) -> Result<(), Part> {
        if tag == 9 { Err(Part::Heap) } else { Ok(()) }
    }

    fn plan(&self, number: u32, arguments: &Args<u32>, pc: u32) -> Result<Plan<u32>, PlanEnd> {
        Ok(Plan {
            service: number,
            pc,
            note: arguments.a0.min(1000),
            range: Some(Words { base: 4, count: 2 }),
            zero: arguments.a0 == 0,
            answer: Some(Answer {
                value: self.noted,
                tag: arguments.t0,
                rest: Rest::Plain,
            }),
        })
    }

    fn retag(&self, _plan: &Plan<u32>, old: u32) -> Result<u32, Refused> {
        match old {
            9 => Err(Refused {
                part: Part::Heap,
                why: Why::NotLive,
            }),
            8 => Err(Refused {
                part: Part::Heap,
                why: Why::NotOwner,
            }),
            _ => Ok(100u32.saturating_sub(old)),
        }
    }

    fn wipe(&self, pc: u32, _old: u32) -> Result<u32, Refused> {
        Ok(pc)
    }

    fn commit(&mut self, plan: &Plan<u32>) -> Result<(), AllocError> {
        self.noted = plan.note;
        Ok(())
    }

    fn uncommit(&mut self, plan: &Plan<u32>) {
        self.noted = match plan.answer {
            Some(answer) => answer.value,
            None => 0,
        };
    }

    fn start_pc(&self, birth: &Birth) -> u32 {
        (birth.into.bits() % WORD) as u32
    }

    fn start_word(&self, birth: &Birth) -> u32 {
        birth.owner
    }

    fn show(&self, _tag: u32, to: &mut Line) {
        write_text(to, b"toy");
    }

    fn listed(&self, place: u32) -> Option<(u32, u32, u32)> {
        Some((place, 4, 1))
    }

    ghost lawful = { record {
      masks = λ s g x. refl;
      unpeeked = λ s shape first second none. refl;
      parted = λ s shape first second one other. refl;
      keeps = λ s p given. record {
        plain = refl;
        rule = λ g x. refl;
        ignores = λ g. refl;
        peeks = refl;
        peek = λ shape first second. refl;
        knows = λ k. refl;
        uses = λ k. refl;
        lend = λ t. refl;
        room = refl;
        wipe = λ pc old. refl;
        start_pc = λ b. refl;
        start_word = λ b. refl;
        text = λ t. refl;
      };
      stays = λ s p given holds. Prim.search rules;
      undoes = λ s p given holds. Prim.search rules;
      ranges = λ s k a pc p can holds given. Prim.search rules;
      few = λ s k known. Prim.search rules;
      service = λ s k a pc p known given. Prim.search rules;
      value = λ s k a pc p known given. Prim.search rules;
      unused = λ s k a b pc known same j. Ok (record {
        service = k;
        pc = pc;
        note = min (same.a0 (lit≤ tt) j) 1000;
        range = Some (record { base = 4; count = 2 });
        zero = same.a0 (lit≤ tt) j == 0;
        answer = Some (record { value = s.noted; tag = same.t0 (lit≤ tt) j; rest = Plain });
      });
      blind_retag = λ s p x old. refl;
      blind_commit = λ s p x. refl;
      words = λ s k a pc p can holds are given. Prim.search rules;
    } };
}
