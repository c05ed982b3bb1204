//! How parts of a whole policy come about.

ghost use Rattle.std.specs.Prelude.{◌≡◌};
ghost use Rattle.policy_product.specs.Both.{IsApart, both};
ghost use Rattle.policy_product.specs.Maybe.{maybe};
ghost use Rattle.policy_parts.specs.Part.{IsPart};
ghost use Rattle.policy_parts.specs.Lens.{Lens, left_lens, on_lens, right_lens};

use policy_trait::Policy;

/// A policy whose plain tag is always the same is a part of itself where it may be off.
pub fn on_law<P: Policy>()
    ensures { (plain : P.Tag) (absent : P) → ((policy : P) → P.model.plain policy ≡ plain)
        → IsPart (maybe P.model) P.model (on_lens plain absent) }
{}

/// A part of the left policy of a pair is a part of the pair.
pub fn left_law<P: Policy, Q: Policy, R: Policy>()
    ensures { (l : Lens P.Tag P R.Tag R) → IsPart P.model R.model l
        → IsPart (both P.model Q.model) R.model (left_lens l) }
{}

/// A part of the right policy of a pair is a part of the pair, where no service is known to both policies of the pair.
pub fn right_law<P: Policy, Q: Policy, R: Policy>()
    ensures { (l : Lens Q.Tag Q R.Tag R) → ((p : P) (q : Q) → IsApart P.model Q.model p q)
        → IsPart Q.model R.model l → IsPart (both P.model Q.model) R.model (right_lens l) }
{}
