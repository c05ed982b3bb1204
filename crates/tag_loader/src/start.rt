//! The engine at the start.

ghost use Rattle.std.specs.Prelude.{◌≡◌, ◌≤◌, IfOk};
ghost use Rattle.tag_loader.specs.Start.{start_standing};

use crate::parts::{harts_of, tags_of, words_of};
use image_format::Image;
use plain_engine::Plain;
use policy_trait::Policy;
use std::alloc::{AllocError, Global};
use tag_memory::Ram;

/// The engine at the start of the image under this policy. The only error is running out of memory.
#[tactic(auto, unfolding(crate::specs::Start::start_machine, crate::specs::Start::start_ram))]
pub fn start_under<P: Policy>(
    alloc: Global,
    policy: P,
    image: &Image,
) -> Result<Plain<P>, AllocError>
    requires { P.model.room policy ≤ image.now.ram }
    ensures { IfOk result (λ engine. engine ≡ start_standing P.model policy image.now) }
{
    // Serves the proof alone: memory has 4 to 16,777,216 bytes, a multiple of 4.
    let _ram = image.ram();
    let words = words_of(alloc, image)?;
    let tags = tags_of(alloc, &policy, image)?;
    let harts = harts_of(alloc, &policy, image)?;
    let plain = policy.plain();
    Ok(Plain::new(alloc, policy, Ram::from_parts(words, tags, plain), harts))
}
