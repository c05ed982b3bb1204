//! Laws of sealing.

ghost use Rattle.std.specs.Prelude.{ℕ};
ghost use Rattle.policy_trait.specs.Uses.{UsesExactly};
ghost use Rattle.sealing_policy.specs.Sealing.{sealing};

/// However many keys were made, a rule uses exactly the inputs that its mask does not ignore: an ignored one changes no
/// answer, and each other one changes some.
pub fn ignores_law()
    ensures { (keys : ℕ) → UsesExactly sealing keys }
{}
