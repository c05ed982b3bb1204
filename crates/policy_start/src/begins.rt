//! Policies that an image can be started under.

ghost use Rattle.std.specs.Prelude.{◌≡◌, ◌≤◌, IfOk};

use crate::quiet::Quiet;
use image_format::Image;
use policy_product::{Both, Nothing};
use policy_trait::Policy;
use std::alloc::{AllocError, Global};

/// A policy that an image can be started under, beside others or alone. `begun` is its value then; `apart` says that none of its
/// services has a number of the machine's own or of the four policies', which are below 64.
pub trait Begins: Policy {
    ghost use Rattle.std.specs.Prelude.{ℕ, List};
    ghost use Rattle.image_format.specs.Picture.{Picture};
    ghost use Rattle.policy_start.specs.Services.{IsFromFirst};

    ghost begun: { List ℕ → Picture → Self };

    /// The policy at the start of an image with these secret bytes, before anything was asked of it. The only error is running out
    /// of memory.
    fn begin(alloc: Global, secret: &[u8], image: &Image) -> Result<Self, AllocError>
        ensures value { IfOk result (λ policy. policy ≡ begun secret.now image.now) }
        ensures room { IfOk result (λ policy. Self.Policy.model.room policy ≤ image.now.ram) };

    ghost apart: { (secret : List ℕ) (image : Picture)
        → IsFromFirst Self.Policy.model (begun secret image) };
}

impl Begins for Nothing {
    ghost use Rattle.policy_start.specs.Services.{nothing_apart, nothing_begun};

    ghost begun = { nothing_begun };

    fn begin(_alloc: Global, _secret: &[u8], _image: &Image) -> Result<Nothing, AllocError> {
        Ok(Nothing)
    }

    ghost apart = { nothing_apart };
}

/// Two policies, of which the right one offers no service.
impl<A: Begins, B: Begins + Quiet> Begins for Both<A, B> {
    ghost use Rattle.policy_start.specs.Services.{both_apart, both_begun};

    ghost begun = { both_begun A.begun B.begun };

    fn begin(alloc: Global, secret: &[u8], image: &Image) -> Result<Both<A, B>, AllocError> {
        let left = A::begin(alloc, secret, image)?;
        let right = B::begin(alloc, secret, image)?;
        Ok(Both::new(left, right))
    }

    ghost apart = { both_apart A.Policy.model B.Policy.model A.begun B.begun A.apart B.quiet };
}
