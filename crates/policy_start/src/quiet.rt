//! Policies that offer no service.

use policy_product::{Both, Nothing};
use policy_trait::Policy;

/// A policy that offers no service, and so stands beside any other.
pub trait Quiet: Policy {
    ghost use Rattle.policy_start.specs.Services.{OffersNone};

    ghost quiet: { OffersNone Self.Policy.model };
}

impl Quiet for Nothing {
    ghost use Rattle.policy_start.specs.Services.{nothing_offers_none};

    ghost quiet = { nothing_offers_none };
}

impl<A: Quiet, B: Quiet> Quiet for Both<A, B> {
    ghost use Rattle.policy_start.specs.Services.{both_offer_none};

    ghost quiet = { both_offer_none A.Policy.model B.Policy.model A.quiet B.quiet };
}
