//! What the next word of a source is marked with.

/// Who owns words: a compartment, numbered from 0. Bit i of `into` lets compartment i jump to them, and bit i of `write` lets it
/// write them.
#[derive(Clone, Copy, PartialEq, Eq)]
pub struct Protection {
    pub owner: u32,
    pub into: u128,
    pub write: u128,
}

impl Protection {
    /// As words are that no compartment was given.
    pub const NONE: Protection = Protection {
        owner: 0,
        into: 0,
        write: 0,
    };
}

/// The marks of the next word.
#[derive(Clone, Copy)]
pub struct Marks {
    /// Whether it is code.
    pub is_code: bool,
    /// The id of its label.
    pub label: Option<u32>,
    /// Whose it is.
    pub protection: Protection,
}

impl Marks {
    /// A source begins in a text, without a label and without protection.
    pub const FIRST: Marks = Marks {
        is_code: true,
        label: None,
        protection: Protection::NONE,
    };
}
