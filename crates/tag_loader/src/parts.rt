//! The words, the tags and the harts at the start.

ghost use Rattle.std.specs.Prelude.{◌≡◌, ◌*◌, ◌≤◌, IfOk, length};
ghost use Rattle.std.specs.List.{All};
ghost use Rattle.tag_memory.specs.Hart.{IsHartOf};
ghost use Rattle.tag_memory.specs.Pages.{items_of};
ghost use Rattle.tag_loader.specs.Start.{memory_of, start_harts, start_tags};

use crate::births::{BirthWalk, birth};
use image_format::Image;
use policy_trait::Policy;
use std::alloc::{AllocError, Global};
use tag_memory::{Hart, Pages};

/// The words of memory at the start: those of the segments at their addresses, and 0 elsewhere. The only error is running out of
/// memory.
#[tactic(auto, unfolding(crate::specs::Start::memory_of))]
pub fn words_of(alloc: Global, image: &Image) -> Result<Vec<u32>, AllocError>
    ensures words { IfOk result (λ words. words.items ≡ memory_of image.now) }
    ensures size { IfOk result (λ words. 4 * length words.items ≡ image.now.ram) }
{
    let mut words = vec![in alloc; 0; (image.ram() / 4) as usize]?;
    for i in 0..image.segment_count() {
        let place = (image.segment_address(i) / 4) as usize;
        let segment = image.segment_words(i);
        words[place..place + segment.len()].copy_from_slice(segment);
    }
    Ok(words)
}

/// The tags of all words at the start. Words of which the image says the same, one behind another, are asked for once.
#[tactic(auto, unfolding(crate::specs::Start::start_tags))]
pub(crate) fn tags_of<P: Policy>(
    alloc: Global,
    policy: &P,
    image: &Image,
) -> Result<Pages<P::Tag>, AllocError>
    ensures tags { IfOk result (λ tags. items_of tags ≡ start_tags P.model policy.now image.now) }
    ensures size { IfOk result (λ tags. 4 * length (items_of tags) ≡ image.now.ram) }
{
    let count = image.ram() / 4;
    let mut births = BirthWalk::new(image);
    let mut tags = Pages::new(alloc, count, policy.plain())?;
    let mut n = 0;
    while n < count {
        let run = births.words_from(n);
        tags = tags.extended(run.end, policy.start_word(&run.birth))?;
        n = run.end;
    }
    Ok(tags)
}

/// The harts at the start. The only error is running out of memory.
#[tactic(auto, unfolding(crate::specs::Start::start_harts))]
pub fn harts_of<P: Policy>(
    alloc: Global,
    policy: &P,
    image: &Image,
) -> Result<Vec<Hart<P::Tag>>, AllocError>
    ensures harts { IfOk result (λ harts. harts.items ≡ start_harts P.model policy.now image.now) }
    ensures some { IfOk result (λ harts. 1 ≤ length harts.items) }
    ensures few { IfOk result (λ harts. length harts.items ≤ 8) }
    ensures plain { IfOk result (λ harts. All (IsHartOf (P.model.plain policy.now)) harts.items) }
{
    let mut harts = Vec::with_capacity(alloc, image.entries().len())?;
    for entry in image.entries() {
        let pc_tag = policy.start_pc(&birth(image, *entry));
        let hart = Hart::new(alloc, *entry, pc_tag, policy.plain())?;
        harts.push(hart)?;
    }
    Ok(harts)
}
