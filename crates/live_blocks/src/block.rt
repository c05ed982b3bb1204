//! What is told of a live block.

ghost use Rattle.std.specs.Prelude.{◌≡◌, ◌<◌, ◌^◌};
ghost use Rattle.live_blocks.specs.Space.{end_of};

/// A live block: its number, the address of its first word, and how many words it has.
#[derive(Clone, Copy, Debug, PartialEq, Eq)]
pub struct Block {
    pub number: u32,
    pub base: u32,
    pub words: u32,
}

impl Block {
    /// The address after its last word.
    pub(crate) fn end(self) -> u32
        requires small { end_of self < 2 ^ 32 }
        ensures { result ≡ end_of self }
    {
        self.base + 4 * self.words
    }
}
