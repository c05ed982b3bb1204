//! Laws of control-flow integrity.

ghost use Rattle.std.specs.Prelude.{ℕ, List};
ghost use Rattle.policy_trait.specs.Uses.{UsesExactly};
ghost use Rattle.flow_policy.specs.Flow.{flow, flow_text};
ghost use Rattle.flow_policy.specs.TextLaws.{TellsApart};

/// Whatever the edges are, and be there none, a rule uses exactly the inputs that its mask does not ignore: an ignored
/// one changes no answer, and each other one changes some.
#[tactic(auto, using(crate::proofs::UsesLemmas::flow_uses_exactly))]
pub fn ignores_law()
    ensures { (edges : List (ℕ × ℕ)) → UsesExactly flow edges }
{}

/// Two tags of one text, with labels of 32 bits, are one tag.
#[tactic(auto, using(crate::proofs::TextLemmas::texts_tell))]
pub fn text_law()
    ensures { TellsApart flow_text }
{}
