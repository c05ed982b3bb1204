//! Operands that are more than one number.

ghost use Rattle.std.specs.Prelude.{◌≡◌, ◌≤◌, length};

use arrayvec::ArrayVec;
use std::marker::Model;

/// The digits of an operand, each by its value, of which a line can hold no more than 256.
#[derive(Drop)]
pub struct Digits {
    values: ArrayVec<u8, 256>,
}

impl Model for Digits {
    ghost use Rattle.std.specs.Prelude.{ℕ, List};

    ghost Value = { List ℕ };

    ghost view = { λ digits. digits.values.items };
}

impl Digits {
    /// The digits as they were gathered.
    pub(crate) fn new(values: ArrayVec<u8, 256>) -> Self
        ensures { result ≡ values.items }
    {
        Digits { values }
    }

    /// The digits in their order.
    pub fn values(&self) -> &[u8]
        ensures value { result.now ≡ self.now }
        ensures few { length result.now ≤ 256 }
    {
        self.values.as_slice()
    }
}

/// The bytes of an operand, of which a line can hold no more than 128.
#[derive(Drop)]
pub struct Bytes {
    values: ArrayVec<u8, 128>,
}

impl Model for Bytes {
    ghost use Rattle.std.specs.Prelude.{ℕ, List};

    ghost Value = { List ℕ };

    ghost view = { λ bytes. bytes.values.items };
}

impl Bytes {
    /// The bytes as they were gathered.
    pub(crate) fn new(values: ArrayVec<u8, 128>) -> Self
        ensures { result ≡ values.items }
    {
        Bytes { values }
    }

    /// The bytes in their order.
    pub fn values(&self) -> &[u8]
        ensures value { result.now ≡ self.now }
        ensures few { length result.now ≤ 128 }
    {
        self.values.as_slice()
    }
}
