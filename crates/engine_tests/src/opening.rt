//! Which words are open, before and after a table of secrecy's tags is known.

use open_words::OpenWords;
use policy_trait::Shape;
use secrecy_policy::{Secrecy, SecretTag};
use std::test::Fail;
use tag_intern::{Decoder, Interner, TagTable};
use turn_steps::{Looks, OperandLook};

/// A load's looks: at its own word, which has this tag's word, and at its address.
fn load(word: u32, address: u32) -> Looks<u32> {
    Looks {
        word,
        operands: Some(OperandLook {
            shape: Shape::Load,
            first: address,
            second: 0,
        }),
    }
}

#[test]
fn words_of_open_tags_are_open_once_they_are_known(rt: HostRuntime) -> Result<(), Fail> {
    let alloc = rt.alloc();
    let policy = Secrecy::new(alloc, &[])?;
    let mut tags = Interner::made(alloc, 2)?;
    assert_eq!(rt; tags.intern(SecretTag::Open), Ok(0));
    assert_eq!(rt; tags.intern(SecretTag::Secret), Ok(1));
    let words = Decoder {
        tags: &tags,
        plain: SecretTag::Open,
    };
    let mut known = OpenWords::new(alloc);
    assert_eq!(rt; known.allow(&load(0, 0)), false);
    known.learn(&policy, &words)?;
    assert_eq!(rt; known.allow(&load(0, 0)), true);
    // a secret address, a secret instruction, and a word that no tag has
    assert_eq!(rt; known.allow(&load(0, 1)), false);
    assert_eq!(rt; known.allow(&load(1, 0)), false);
    assert_eq!(rt; known.allow(&load(0, 2)), false);
    known.forget();
    assert_eq!(rt; known.allow(&load(0, 0)), false);
    Ok(())
}
