//! How long a member waits that was judged again soon after it was joined again.

ghost use Rattle.std.specs.Prelude.{◌≡◌, ◌&&◌};
ghost use Rattle.swim_rejoin.specs.Waits.{is_long_after, is_new, is_soon, times_after, times_once_judged};

/// Who is judged again within so many periods of such a join waits longer.
const SOON: u64 = 16;

/// After so many periods without a verdict a member waits as at first.
const QUIET: u64 = 256;

/// A member waits for at most so many knocks.
const MOST_TIMES: u8 = 64;

/// How many knocks since the verdict a member waits for, once the table shows that verdict on it, or none. It waited for
/// so many the last time; it was last joined in that period, and that was the last verdict on it that was shown before.
pub(crate) fn times_once_judged(
    last: u8,
    joined: Option<u64>,
    shown: Option<u64>,
    verdict: Option<u64>,
) -> u8
    ensures { result ≡ times_once_judged last joined shown verdict }
{
    match verdict {
        Some(number) if is_new(number, shown) => times_after(last, joined, shown, number),
        _ => last,
    }
}

/// A new verdict fell.
fn times_after(last: u8, joined: Option<u64>, shown: Option<u64>, number: u64) -> u8
    ensures { result ≡ times_after last joined shown number }
{
    if is_soon(number, joined) {
        last.saturating_mul(2).min(MOST_TIMES)
    } else if is_long_after(number, joined) && is_long_after(number, shown) {
        1
    } else {
        last
    }
}

/// Whether a verdict isn't the last one that was shown.
fn is_new(number: u64, shown: Option<u64>) -> bool
    ensures { result ≡ is_new number shown }
{
    match shown {
        Some(shown) => number != shown,
        None => true,
    }
}

/// Whether a verdict fell soon after a join.
fn is_soon(number: u64, joined: Option<u64>) -> bool
    ensures { result ≡ is_soon number joined }
{
    match joined {
        Some(joined) => joined < number && number - joined <= SOON,
        None => false,
    }
}

/// Whether a verdict fell long after a period, or after none at all.
fn is_long_after(number: u64, period: Option<u64>) -> bool
    ensures { result ≡ is_long_after number period }
{
    match period {
        Some(period) => period < number && number - period > QUIET,
        None => true,
    }
}
