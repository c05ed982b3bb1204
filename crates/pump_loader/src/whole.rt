//! Policies that an image can be started under, each as one.

ghost use Rattle.std.specs.Prelude.{◌≡◌, ◌≤◌, IfOk};

use image_format::Image;
use policy_choice::{All, AllTag, Basis, Together};
use policy_product::Both;
use policy_start::Begins;
use policy_trait::Policy;
use secrecy_policy::Secrecy;
use std::alloc::{AllocError, Global};
use tag_intern::{Interner, TagTable};
use tag_pairs::Pairs;

/// A policy that an image can be started under: those that a basis chooses, as one.
pub trait Whole: Policy {
    ghost use Rattle.std.specs.Prelude.{ℕ, List};
    ghost use Rattle.image_format.specs.Picture.{Picture};
    ghost use Rattle.policy_choice.specs.declared.basis.Basis.{Basis};

    /// What gives words to the tags where rules are kept.
    type Table: TagTable<Tag = <Self as Policy>::Tag>;

    ghost chosen: { Basis → List ℕ → Picture → Self };

    /// The policy at the start of the image, on this basis and with these secret bytes, before anything was asked of it. The only
    /// error is running out of memory.
    fn choose(alloc: Global, basis: Basis, secret: &[u8], image: &Image) -> Result<Self, AllocError>
        ensures value { IfOk result (λ policy. policy ≡ chosen basis secret.now image.now) }
        ensures room { IfOk result (λ policy. Self.Policy.model.room policy ≤ image.now.ram) };
}

/// The four policies with secrecy beside them.
pub type Hidden = Both<All, Secrecy>;

impl Whole for Together<AllTag> {
    ghost use Rattle.pump_loader.specs.Wholes.{open_state};

    type Table = Interner<AllTag>;

    ghost chosen = { open_state };

    /// The four have no use for secret bytes.
    fn choose(
        alloc: Global,
        basis: Basis,
        _secret: &[u8],
        image: &Image,
    ) -> Result<All, AllocError> {
        policy_choice::choose(alloc, basis, image)
    }
}

/// The four with any policy beside them that begins: none of its services has a number of theirs.
impl<P: Begins> Whole for Both<All, P> {
    ghost use Rattle.pump_loader.specs.Wholes.{beside_state};

    // Each side has a table of its own, so that the words of the four's tags are found by the very code that finds them
    // without another policy: with a second caller it would no longer be inlined there.
    type Table = Pairs<Interner<AllTag>, Interner<P::Tag>>;

    ghost chosen = { beside_state P.begun };

    fn choose(
        alloc: Global,
        basis: Basis,
        secret: &[u8],
        image: &Image,
    ) -> Result<Both<All, P>, AllocError> {
        let all = policy_choice::choose(alloc, basis, image)?;
        let other = P::begin(alloc, secret, image)?;
        Ok(Both::new(all, other))
    }
}
