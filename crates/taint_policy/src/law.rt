//! Laws of taint.

ghost use Rattle.policy_trait.specs.Uses.{UsesExactly};
ghost use Rattle.taint_policy.specs.Taint.{taint, taint_text};
ghost use Rattle.taint_policy.specs.TextLaws.{TellsApart};
ghost use Rattle.taint_policy.specs.declared.policy.Taint.{Taint};

/// A rule uses exactly the inputs that its mask does not ignore: an ignored one changes no answer, and each other one
/// changes some.
pub fn ignores_law()
    ensures { (policy : Taint) → UsesExactly taint policy }
{}

/// Two tags of one text are one tag.
pub fn text_law()
    ensures { TellsApart taint_text }
{}
