//! Which bytes a line may have, and which texts are names.

ghost use Rattle.std.specs.Prelude.{◌≡◌};
ghost use Rattle.std.specs.List.{list_all};
ghost use Rattle.asm_text.specs.Bytes.{is_allowed, is_blank, is_letter, is_name, is_name_byte};

/// Whether the byte is a blank: a tab or a space.
pub(crate) fn is_blank(byte: u8) -> bool
    ensures { result ≡ is_blank byte }
{
    byte == b'\t' || byte == b' '
}

/// Whether the byte may stand in a line: a tab, or a character that ASCII prints.
fn is_allowed(byte: u8) -> bool
    ensures { result ≡ is_allowed byte }
{
    byte == b'\t' || (byte >= b' ' && byte <= b'~')
}

/// Whether the byte may begin a name: a letter or `_`.
fn is_letter(byte: u8) -> bool
    ensures { result ≡ is_letter byte }
{
    (byte >= b'a' && byte <= b'z') || (byte >= b'A' && byte <= b'Z') || byte == b'_'
}

/// Whether the byte may go on a name: a letter, `_` or a decimal digit.
fn is_name_byte(byte: u8) -> bool
    ensures { result ≡ is_name_byte byte }
{
    is_letter(byte) || (byte >= b'0' && byte <= b'9')
}

/// Whether all bytes of a line, without what ends it, may stand there: tabs, and characters that ASCII prints.
pub fn only_allowed(text: &[u8]) -> bool
    ensures { result ≡ list_all is_allowed text.now }
{
    text.iter().all(|byte| is_allowed(*byte))
}

/// Whether each byte may go on a name.
fn all_name_bytes(text: &[u8]) -> bool
    ensures { result ≡ list_all is_name_byte text.now }
{
    text.iter().all(|byte| is_name_byte(*byte))
}

/// Whether the text is a name: a letter or `_`, and then letters, `_` and decimal digits.
pub fn is_name(text: &[u8]) -> bool
    ensures { result ≡ is_name text.now }
{
    match text {
        [] => false,
        [first, rest @ ..] => is_letter(*first) && all_name_bytes(rest),
    }
}
