//! Counts that stop at the greatest number.

ghost use Rattle.std.specs.Prelude.{◌≡◌, ◌+◌, if◌then◌else◌};
ghost use Rattle.swim_metrics.specs.Counting.{capped};

/// So many more.
pub(crate) fn more(count: u64, times: u64) -> u64
    ensures { result ≡ capped (count + times) }
{
    count.saturating_add(times)
}

/// Counts one more, if it is so. Most often it isn't, and then nothing is written.
pub(crate) fn count_if(count: &mut u64, is_so: bool)
    ensures { count.new ≡ capped (count.old + (if is_so then 1 else 0)) }
{
    let before = *count;
    if is_so {
        *count = more(before, 1);
    }
}

/// One more, if it is so.
pub(crate) fn more_if(count: u64, is_so: bool) -> u64
    ensures { result ≡ capped (count + (if is_so then 1 else 0)) }
{
    more(count, u64::from(is_so))
}
