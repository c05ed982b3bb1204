//! Why a line is refused.

ghost use Rattle.std.specs.Prelude.{◌≡◌};
ghost use Rattle.shell_lang.specs.Refusals.{number_of};

/// Why a line is refused.
#[derive(Clone, Copy)]
pub enum BadCommand {
    /// Its first word is no command.
    UnknownWord = 1,
    /// The command has another number of operands.
    OperandCount = 2,
    /// An operand isn't written as its kind is.
    Malformed = 3,
    /// An operand is out of its range.
    OutOfRange = 4,
    /// The operand isn't an even number of hexadecimal digits.
    OddHexadecimal = 5,
    /// It has more than 256 bytes.
    TooLong = 6,
}

impl BadCommand {
    /// The number by which the refusal is told: 1 to 6, in the order of the variants.
    pub fn number(self) -> u32
        ensures { result ≡ number_of self }
    {
        self as u32
    }
}
