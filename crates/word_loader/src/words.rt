//! The harts and the tags at the start, where tags are words of a table.

ghost use Rattle.std.specs.Prelude.{◌≡◌, ◌*◌, ◌<◌, Err, IfOk, OnOk, Some, length, slice_get};
ghost use Rattle.engine_trait.specs.Accounts.{with_tags};
ghost use Rattle.tag_intern.specs.Table.{Extends};
ghost use Rattle.tag_memory.specs.Pages.{items_of};
ghost use Rattle.word_loader.specs.Named.{AreHartsOf, AreWordsOf};
ghost use Rattle.tag_loader.specs.Start.{start_harts, start_tags};
ghost use Rattle.word_loader.specs.CachedStart.{pc_tags};

use image_format::Image;
use policy_trait::Policy;
use std::alloc::Global;
use tag_intern::{InternEnd, TagTable};
use tag_loader::{BirthWalk, harts_of};
use tag_memory::{Hart, Pages};

/// The harts at the start. The tag of each one's pc gets a word; its registers have word 0, which is that of the plain tag.
///
/// `Full` is told only where the table would have more tags than it may.
pub(crate) fn word_harts<P: Policy, T: TagTable<Tag = P::Tag>>(
    alloc: Global,
    policy: &P,
    image: &Image,
    table: &mut T,
) -> Result<Vec<Hart<u32>>, InternEnd>
    requires { slice_get (T.state table.old).tags 0 ≡ Some (P.model.plain policy.now) }
    ensures seen { OnOk result ((T.state table.new).tags ≡ with_tags P.Tag.eq
        (T.state table.old).tags (pc_tags P.model policy.now image.now)) }
    ensures limit { (T.state table.new).limit ≡ (T.state table.old).limit }
    ensures extends { Extends (T.state table.old).tags (T.state table.new).tags }
    ensures harts { IfOk result (λ harts. AreHartsOf (T.state table.new).tags
        (start_harts P.model policy.now image.now) harts.items) }
    ensures full { result ≡ Err InternEnd.Full → (T.state table.old).limit
        < length (with_tags P.Tag.eq (T.state table.old).tags
        (pc_tags P.model policy.now image.now)) }
{
    let Ok(starts) = harts_of(alloc, policy, image) else {
        return Err(InternEnd::Memory);
    };
    let Ok(mut harts) = Vec::with_capacity(alloc, starts.len()) else {
        return Err(InternEnd::Memory);
    };
    for start in &starts {
        let pc_tag = table.intern(start.pc_tag())?;
        let Ok(hart) = Hart::new(alloc, start.pc(), pc_tag, 0) else {
            return Err(InternEnd::Memory);
        };
        let Ok(()) = harts.push(hart) else {
            return Err(InternEnd::Memory);
        };
    }
    Ok(harts)
}

/// The tags of all words at the start, as words. Words of which the image says the same, one behind another, are asked for
/// once.
///
/// `Full` is told only where the table would have more tags than it may.
pub(crate) fn word_tags<P: Policy, T: TagTable<Tag = P::Tag>>(
    alloc: Global,
    policy: &P,
    image: &Image,
    table: &mut T,
) -> Result<Pages<u32>, InternEnd>
    ensures seen { OnOk result ((T.state table.new).tags ≡ with_tags P.Tag.eq
        (T.state table.old).tags (start_tags P.model policy.now image.now)) }
    ensures limit { (T.state table.new).limit ≡ (T.state table.old).limit }
    ensures extends { Extends (T.state table.old).tags (T.state table.new).tags }
    ensures words { IfOk result (λ words. AreWordsOf (T.state table.new).tags
        (start_tags P.model policy.now image.now) (items_of words)) }
    ensures size { IfOk result (λ words. 4 * length (items_of words) ≡ image.now.ram) }
    ensures full { result ≡ Err InternEnd.Full → (T.state table.old).limit
        < length (with_tags P.Tag.eq (T.state table.old).tags
        (start_tags P.model policy.now image.now)) }
{
    let count = image.ram() / 4;
    let mut births = BirthWalk::new(image);
    let Ok(mut words) = Pages::new(alloc, count, 0) else {
        return Err(InternEnd::Memory);
    };
    let mut n = 0;
    while n < count {
        let run = births.words_from(n);
        let word = table.intern(policy.start_word(&run.birth))?;
        let Ok(longer) = words.extended(run.end, word) else {
            return Err(InternEnd::Memory);
        };
        words = longer;
        n = run.end;
    }
    Ok(words)
}
