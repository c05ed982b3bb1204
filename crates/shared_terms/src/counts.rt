//! Counting without an end: a count that is the largest stays so.

ghost use Rattle.std.specs.Prelude.{◌≡◌};
ghost use Rattle.shared_terms.specs.Counts.{next_count};

/// Counts one more; the largest count stays.
#[inline(always)]
pub fn count_up(count: &mut u64)
    ensures { count.new ≡ next_count count.old }
{
    // The carry is looked at behind the store, so that a processor adds in place.
    *count = count.wrapping_add(1);
    if *count == 0 {
        stay_largest(count);
    }
}

/// Makes a count the largest.
#[cold]
#[inline(never)]
fn stay_largest(count: &mut u64)
    ensures { count.new ≡ 18446744073709551615 }
{
    *count = u64::MAX;
}
