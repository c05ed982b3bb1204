//! What a policy refuses, as tests name it.

ghost use Rattle.std.specs.Prelude.{◌≡◌};

use policy_trait::{Part, Refused, Why};

/// The refusal of that policy.
pub(crate) fn refused(part: Part, why: Why) -> Refused
    ensures { result ≡ record { part = part; why = why } }
{
    Refused { part, why }
}
