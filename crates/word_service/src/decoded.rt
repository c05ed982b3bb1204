//! Memory of words, read with the tags that they stand for.

ghost use Rattle.std.specs.Prelude.{◌≡◌};

use monitor_calls::View;
use policy_trait::TagMap;
use tag_intern::{Decoder, TagTable};
use tag_memory::Ram;

/// Memory whose tags are words, as a service looks at it: with the tags that the words stand for.
#[derive(Drop)]
pub struct Decoded<'a, T: TagTable> {
    /// Memory.
    pub ram: &'a Ram<u32>,
    /// What its words stand for.
    pub decoder: Decoder<'a, T>,
}

impl<T: TagTable> View for Decoded<'_, T> {
    ghost use Rattle.tag_memory.specs.Ram.{ram_bytes, ram_tag, ram_word};
    ghost use Rattle.tag_intern.specs.Words.{tag_at};

    type Tag = T::Tag;

    ghost bytes_of = { λ memory. ram_bytes memory.ram.now };

    ghost word_at = { λ memory. ram_word memory.ram.now };

    ghost tag_at = { λ memory address. tag_at memory.decoder.plain (T.state memory.decoder.tags.now).tags
        (ram_tag memory.ram.now address) };

    fn bytes(&self) -> u32 {
        self.ram.bytes()
    }

    fn word(&self, address: u32) -> u32 {
        self.ram.word(address)
    }

    fn tag(&self, address: u32) -> T::Tag {
        self.decoder.image(self.ram.tag(address))
    }

    // the same word is that of the same tag
    fn has_same_tag(&self, first: u32, second: u32) -> bool {
        self.ram.tag(first) == self.ram.tag(second)
    }
}
