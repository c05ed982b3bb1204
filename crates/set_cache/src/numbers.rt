//! The number of each group's set, as a table, since a division would cost a look-up more than all else that it does.

ghost use Rattle.std.specs.Prelude.{◌≡◌, ◌-◌, ◌≤◌, slice_index};
ghost use Rattle.engine_trait.specs.Accounts.{group_number};
ghost use Rattle.set_cache.specs.Sets.{AreNumbers};

use rv_decode::Group;

/// How many groups there are.
pub(crate) const GROUPS: usize = 21;

/// The number of each group's set, in the order of groups, where there are so many sets.
pub(crate) fn set_numbers(sets: usize) -> [u8; GROUPS]
    requires { 1 ≤ sets }
    ensures { AreNumbers sets result }
{
    let mut numbers = [0; GROUPS];
    for place in 0..GROUPS {
        numbers[place] = ((place + 1) % sets) as u8;
    }
    numbers
}

/// The number that the table has for a group.
#[inline(always)]
pub(crate) fn number_of(numbers: &[u8; GROUPS], group: Group) -> usize
    ensures { result ≡ slice_index numbers.now (group_number group - 1) }
{
    numbers[group as usize] as usize
}
