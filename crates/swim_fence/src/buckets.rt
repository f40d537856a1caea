//! Buckets, from which datagrams are paid.

ghost use Rattle.std.specs.Prelude.{◌≡◌};
ghost use Rattle.swim_fence.specs.Buckets.{after, amount_at, full, most, pays};

/// What one datagram costs. A rate of 1 puts as much into a bucket within a second, 1 in each nanosecond.
const PRICE: u64 = 1_000_000_000;

/// What was left in a bucket, and the latest time, in nanoseconds, at which a datagram asked. It holds what the
/// datagrams of a second cost, and no more.
#[derive(Clone, Copy)]
pub(crate) struct Bucket {
    amount: u64,
    at: u64,
}

impl Bucket {
    /// A bucket from which nothing was paid.
    pub(crate) fn full(rate: u32) -> Bucket
        ensures { result ≡ full rate }
    {
        Bucket {
            amount: most(rate),
            at: 0,
        }
    }

    /// A datagram asks at that time: it passes, and is paid, where there is enough.
    pub(crate) fn ask(&mut self, rate: u32, now: u64) -> bool
        ensures passes { result ≡ pays (amount_at rate self.old now) }
        ensures after { self.new ≡ after rate now self.old }
    {
        let amount = self.amount_at(rate, now);
        let passes = amount >= PRICE;
        self.amount = if passes { amount - PRICE } else { amount };
        self.at = self.at.max(now);
        passes
    }

    /// What is in it at that time: what was left, and what was put in since.
    fn amount_at(&self, rate: u32, now: u64) -> u64
        ensures { result ≡ amount_at rate self.now now }
    {
        let since = now.saturating_sub(self.at);
        let put_in = u64::from(rate).saturating_mul(since);
        self.amount.saturating_add(put_in).min(most(rate))
    }
}

/// What a bucket holds at most.
fn most(rate: u32) -> u64
    ensures { result ≡ most rate }
{
    u64::from(rate) * PRICE
}
