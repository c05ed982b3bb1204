//! Numbers that are changed by a list: each gets the one that stands at its place there.

ghost use Rattle.std.specs.Prelude.{◌≡◌, map, slice_index, vec_capacity};

/// Gives each number of a list the one that stands at its place in `numbers`, 0 for one past its
/// end. It takes no memory.
pub(crate) fn renumber_all(list: &mut Vec<u32>, numbers: &[u32])
    ensures items { list.new.items ≡ map (slice_index numbers.now) list.old.items }
    ensures capacity { vec_capacity list.new ≡ vec_capacity list.old }
{
    for number in list.iter_mut() {
        *number = number_at(numbers, *number);
    }
}

/// The number at a place of `numbers`, 0 past its end.
pub(crate) fn number_at(numbers: &[u32], place: u32) -> u32
    ensures { result ≡ slice_index numbers.now place }
{
    numbers.get(place as usize).copied().unwrap_or(0)
}
