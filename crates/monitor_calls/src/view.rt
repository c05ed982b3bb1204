//! Memory as a service looks at it.

ghost use Rattle.std.specs.Prelude.{◌≡◌, ◌+◌, ◌%◌, ◌≤◌, true};
ghost use Rattle.tag_memory.specs.Ram.{IsPlace};

use pump_words::Same;
use tag_memory::Ram;

/// Memory with its tags, as a service looks at it.
pub trait View {
    ghost use Rattle.std.specs.Prelude.{ℕ};

    type Tag: Same;

    ghost bytes_of: { Self → ℕ };

    ghost word_at: { Self → ℕ → ℕ };

    ghost tag_at: { Self → ℕ → Self.Tag };

    /// The bytes of memory.
    fn bytes(&self) -> u32
        ensures { result ≡ bytes_of self.now };

    /// The word at `address`.
    fn word(&self, address: u32) -> u32
        requires aligned { address % 4 ≡ 0 }
        requires within { address + 4 ≤ bytes_of self.now }
        ensures { result ≡ word_at self.now address };

    /// The tag of the word at `address`.
    fn tag(&self, address: u32) -> Self::Tag
        requires aligned { address % 4 ≡ 0 }
        requires within { address + 4 ≤ bytes_of self.now }
        ensures { result ≡ tag_at self.now address };

    /// Whether the words at two addresses are seen to have the same tag. Where telling that takes more than a look, the answer may
    /// be no.
    fn has_same_tag(&self, first: u32, second: u32) -> bool
        requires first { IsPlace (bytes_of self.now) first }
        requires second { IsPlace (bytes_of self.now) second }
        ensures { result ≡ true → tag_at self.now first ≡ tag_at self.now second };
}

impl<T: Same> View for Ram<T> {
    ghost use Rattle.tag_memory.specs.Ram.{ram_bytes, ram_tag, ram_word};

    type Tag = T;

    ghost bytes_of = { ram_bytes };

    ghost word_at = { ram_word };

    ghost tag_at = { ram_tag };

    fn bytes(&self) -> u32 {
        Ram::bytes(self)
    }

    fn word(&self, address: u32) -> u32 {
        Ram::word(self, address)
    }

    fn tag(&self, address: u32) -> T {
        Ram::tag(self, address)
    }

    fn has_same_tag(&self, first: u32, second: u32) -> bool {
        Ram::tag(self, first) == Ram::tag(self, second)
    }
}
