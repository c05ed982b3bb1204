//! Laws of heap safety.

ghost use Rattle.std.specs.Prelude.{◌≡◌, Some};
ghost use Rattle.policy_trait.specs.Model.{IsGiven};
ghost use Rattle.policy_trait.specs.Uses.{UsesExactly};
ghost use Rattle.policy_trait.specs.declared.services.Plan.{Plan};
ghost use Rattle.policy_trait.specs.declared.services.Words.{Words};
ghost use Rattle.heap_policy.specs.Heap.{CanHandOut, HeapState, heap, heap_text, malloc_service};
ghost use Rattle.heap_policy.specs.declared.tag.HeapTag.{HeapTag};
ghost use Rattle.heap_policy.specs.TextLaws.{TellsApart};

/// Whatever blocks are live, a rule uses exactly the inputs that its mask does not ignore: an ignored one changes no
/// answer, and each other one changes some.
#[tactic(auto, using(crate::proofs::UsesLemmas::heap_uses_exactly))]
pub fn ignores_law()
    ensures { (state : HeapState) → UsesExactly heap state }
{}

/// Two tags of one text, with block numbers of 32 bits, are one tag.
#[tactic(auto, using(crate::proofs::TextLemmas::texts_tell))]
pub fn text_law()
    ensures { TellsApart heap_text }
{}

/// A block that is handed out has the next number, and lies at the lowest place of the heap region where it meets no live
/// block.
pub fn malloc_law()
    ensures { (state : HeapState) (plan : Plan HeapTag) (words : Words) → IsGiven heap state plan
        → plan.service ≡ malloc_service → plan.range ≡ Some words → CanHandOut state plan.note words }
{}
