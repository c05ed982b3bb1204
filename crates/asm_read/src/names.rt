//! The names of places.

ghost use Rattle.std.specs.Prelude.{◌≡◌};

use std::marker::Model;

/// A name as the source has it. A contract sees its bytes.
#[derive(Drop)]
pub struct Name<'a> {
    text: &'a [u8],
}

impl<'a> Model for Name<'a> {
    ghost use Rattle.std.specs.Prelude.{ℕ, List};

    ghost Value = { List ℕ };

    ghost view = { λ name. name.text.now };
}

impl<'a> Name<'a> {
    /// The name of these bytes.
    pub fn new(text: &'a [u8]) -> Name<'a>
        ensures { result ≡ text.now }
    {
        Name { text }
    }

    /// Its bytes, in the source.
    pub fn text(&self) -> &'a [u8]
        ensures { result.now ≡ self.now }
    {
        self.text
    }
}
