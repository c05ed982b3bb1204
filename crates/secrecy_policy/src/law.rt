//! Laws of secrecy.

ghost use Rattle.policy_trait.specs.Uses.{UsesExactly};
ghost use Rattle.secrecy_policy.specs.Secrecy.{SecretState, secrecy, secret_text};
ghost use Rattle.secrecy_policy.specs.TextLaws.{TellsApart};

/// A rule uses exactly the inputs that its mask does not ignore: an ignored one changes no answer, and each other one
/// changes some.
pub fn ignores_law()
    ensures { (s : SecretState) → UsesExactly secrecy s }
{}

/// Two tags of one text are one tag.
pub fn text_law()
    ensures { TellsApart secret_text }
{}
