//! Numbers and fields at the front of bytes. `size` is the length of the file, whose rest the bytes are.

ghost use Rattle.std.specs.Prelude.{◌≡◌, ◌-◌, length};
ghost use Rattle.std.specs.Int.{w16, w32, w128};
ghost use Rattle.image_format.specs.Conditions.{is_ram, is_heap_base, is_heap_bytes, is_place, is_aligned, is_word_count, is_owner};
ghost use Rattle.image_format.specs.Reading.{Gives, number_at, field_at, version_at, opening_at, harts_at};

use crate::errors::{ImageEnd, ImageError};
use crate::version::Version;

/// What every file begins with: `PUMP`, read as a number.
pub(crate) const MAGIC: u32 = 0x504D_5550;

/// The most harts of an image: 8.
pub const MOST_HARTS: u16 = 8;

/// The most bytes of an image's RAM: 16 MiB.
pub const MOST_RAM: u32 = 16_777_216;

/// Two bytes, the low one first.
pub(crate) fn half_of(size: usize, bytes: &[u8]) -> Result<(u16, &[u8]), ImageEnd>
    ensures { Gives (λ x. (x.0, x.1.now)) result (number_at w16 size bytes.now) }
{
    if bytes.len() < 2 {
        return Err(ImageEnd::Bad(ImageError::Short(size)));
    }
    let (prefix, rest) = bytes.split_at(2);
    Ok((u16::from_le_bytes([prefix[0], prefix[1]]), rest))
}

/// Four bytes, the low one first.
pub(crate) fn number_of(size: usize, bytes: &[u8]) -> Result<(u32, &[u8]), ImageEnd>
    ensures { Gives (λ x. (x.0, x.1.now)) result (number_at w32 size bytes.now) }
{
    if bytes.len() < 4 {
        return Err(ImageEnd::Bad(ImageError::Short(size)));
    }
    let (prefix, rest) = bytes.split_at(4);
    let number = u32::from_le_bytes([prefix[0], prefix[1], prefix[2], prefix[3]]);
    Ok((number, rest))
}

/// Sixteen bytes, the low one first.
pub(crate) fn wide_number_of(size: usize, bytes: &[u8]) -> Result<(u128, &[u8]), ImageEnd>
    ensures { Gives (λ x. (x.0, x.1.now)) result (number_at w128 size bytes.now) }
{
    if bytes.len() < 16 {
        return Err(ImageEnd::Bad(ImageError::Short(size)));
    }
    let (prefix, rest) = bytes.split_at(16);
    let mut number = [0; 16];
    number.copy_from_slice(prefix);
    Ok((u128::from_le_bytes(number), rest))
}

/// That the field at the front of the bytes fails its condition.
fn bad_field(number: u8, size: usize, bytes: &[u8]) -> ImageEnd
    ensures { result ≡ ImageEnd.Bad (ImageError.Field number (size - length bytes.now)) }
{
    ImageEnd::Bad(ImageError::Field(number, size.saturating_sub(bytes.len())))
}

/// The version.
#[tactic(auto, unfolding(crate::specs::Reading::version_at))]
fn version_of(size: usize, bytes: &[u8]) -> Result<(Version, &[u8]), ImageEnd>
    ensures { Gives (λ x. (x.0, x.1.now)) result (version_at size bytes.now) }
{
    let (number, rest) = half_of(size, bytes)?;
    match number {
        1 => Ok((Version::One, rest)),
        2 => Ok((Version::Two, rest)),
        _ => Err(ImageEnd::Bad(ImageError::Version(number))),
    }
}

/// The magic and the version.
#[tactic(auto, unfolding(crate::specs::Reading::opening_at, crate::specs::Reading::tested_at))]
pub(crate) fn opening_of(size: usize, bytes: &[u8]) -> Result<(Version, &[u8]), ImageEnd>
    ensures { Gives (λ x. (x.0, x.1.now)) result (opening_at size bytes.now) }
{
    let (magic, rest) = number_of(size, bytes)?;
    if magic != MAGIC {
        return Err(ImageEnd::Bad(ImageError::Magic));
    }
    version_of(size, rest)
}

/// The number of harts.
#[tactic(auto, unfolding(crate::specs::Reading::tested_at))]
pub(crate) fn harts_of(size: usize, bytes: &[u8]) -> Result<(u16, &[u8]), ImageEnd>
    ensures { Gives (λ x. (x.0, x.1.now)) result (harts_at size bytes.now) }
{
    let (harts, rest) = half_of(size, bytes)?;
    if harts < 1 || harts > MOST_HARTS {
        return Err(bad_field(1, size, bytes));
    }
    Ok((harts, rest))
}

/// The bytes of the RAM.
#[tactic(auto, unfolding(crate::specs::Reading::tested_at))]
pub(crate) fn ram_of(size: usize, bytes: &[u8]) -> Result<(u32, &[u8]), ImageEnd>
    ensures { Gives (λ x. (x.0, x.1.now)) result (field_at size 2 is_ram bytes.now) }
{
    let (ram, rest) = number_of(size, bytes)?;
    if ram % 4 != 0 || ram < 4 || ram > MOST_RAM {
        return Err(bad_field(2, size, bytes));
    }
    Ok((ram, rest))
}

/// Where the heap region begins.
#[tactic(auto, unfolding(crate::specs::Reading::tested_at))]
pub(crate) fn heap_base_of(size: usize, ram: u32, bytes: &[u8]) -> Result<(u32, &[u8]), ImageEnd>
    ensures { Gives (λ x. (x.0, x.1.now)) result (field_at size 3 (is_heap_base ram) bytes.now) }
{
    let (base, rest) = number_of(size, bytes)?;
    if base % 4 != 0 || base > ram {
        return Err(bad_field(3, size, bytes));
    }
    Ok((base, rest))
}

/// The bytes of the heap region.
#[tactic(auto, unfolding(crate::specs::Reading::tested_at))]
pub(crate) fn heap_bytes_of(
    size: usize,
    ram: u32,
    base: u32,
    bytes: &[u8],
) -> Result<(u32, &[u8]), ImageEnd>
    ensures { Gives (λ x. (x.0, x.1.now)) result
        (field_at size 4 (is_heap_bytes ram base) bytes.now) }
{
    let (heap, rest) = number_of(size, bytes)?;
    if heap % 4 != 0 || u64::from(base) + u64::from(heap) > u64::from(ram) {
        return Err(bad_field(4, size, bytes));
    }
    Ok((heap, rest))
}

/// The address of a word of the RAM.
#[tactic(auto, unfolding(crate::specs::Reading::tested_at))]
pub(crate) fn place_of(
    field: u8,
    size: usize,
    ram: u32,
    bytes: &[u8],
) -> Result<(u32, &[u8]), ImageEnd>
    ensures { Gives (λ x. (x.0, x.1.now)) result (field_at size field (is_place ram) bytes.now) }
{
    let (address, rest) = number_of(size, bytes)?;
    if address % 4 != 0 || address >= ram {
        return Err(bad_field(field, size, bytes));
    }
    Ok((address, rest))
}

/// A multiple of 4.
#[tactic(auto, unfolding(crate::specs::Reading::tested_at))]
pub(crate) fn aligned_of(field: u8, size: usize, bytes: &[u8]) -> Result<(u32, &[u8]), ImageEnd>
    ensures { Gives (λ x. (x.0, x.1.now)) result (field_at size field is_aligned bytes.now) }
{
    let (address, rest) = number_of(size, bytes)?;
    if address % 4 != 0 {
        return Err(bad_field(field, size, bytes));
    }
    Ok((address, rest))
}

/// How many words there are from an address on.
#[tactic(auto, unfolding(crate::specs::Reading::tested_at))]
pub(crate) fn word_count_of(
    field: u8,
    size: usize,
    ram: u32,
    address: u32,
    bytes: &[u8],
) -> Result<(u32, &[u8]), ImageEnd>
    ensures { Gives (λ x. (x.0, x.1.now)) result
        (field_at size field (is_word_count ram address) bytes.now) }
{
    let (words, rest) = number_of(size, bytes)?;
    if words < 1 || u64::from(address) + 4 * u64::from(words) > u64::from(ram) {
        return Err(bad_field(field, size, bytes));
    }
    Ok((words, rest))
}

/// A compartment's number.
#[tactic(auto, unfolding(crate::specs::Reading::tested_at))]
pub(crate) fn owner_of(
    version: Version,
    size: usize,
    bytes: &[u8],
) -> Result<(u32, &[u8]), ImageEnd>
    ensures { Gives (λ x. (x.0, x.1.now)) result (field_at size 14 (is_owner version) bytes.now) }
{
    let (owner, rest) = number_of(size, bytes)?;
    if owner >= version.compartment_limit() {
        return Err(bad_field(14, size, bytes));
    }
    Ok((owner, rest))
}
