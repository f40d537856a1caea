//! A histogram of waits.

ghost use Rattle.std.specs.Prelude.{◌≡◌, ℕ, List, [], ◌∷◌, ◌++◌, map};
ghost use Rattle.std.specs.Option.{option_to_list};
ghost use Rattle.swim_metrics.specs.Counting.{capped};
ghost use Rattle.swim_metrics.specs.Following.{AreOf, bucket_of, bucket_then};
ghost use Rattle.swim_metrics.specs.Waiting.{bounds};

use crate::counting::{more, more_if};

/// How many waits were at most so long.
#[derive(Clone, Copy, Debug, PartialEq, Eq)]
pub struct HistogramBucket {
    /// In ticks.
    pub bound: u64,
    pub count: u64,
}

/// How long the acks of probes were waited for, in ticks.
#[derive(Clone, Copy, Debug, PartialEq, Eq)]
pub struct Waits {
    /// Each counts the waits of those before it, too.
    pub buckets: [HistogramBucket; 16],
    /// All waits together.
    pub sum: u64,
    /// How many there were.
    pub count: u64,
}

impl Waits {
    /// There was none.
    pub(crate) fn new() -> Waits
        ensures { AreOf result [] }
    {
        Waits {
            buckets: no_buckets(),
            sum: 0,
            count: 0,
        }
    }

    /// Counts a wait, if one ended.
    pub(crate) fn add(&mut self, wait: Option<u64>)
        ensures { (ended waits : List ℕ) → option_to_list wait ≡ map capped ended →
            AreOf self.old waits → AreOf self.new (ended ++ waits) }
    {
        if let Some(wait) = wait {
            self.add_one(wait);
        }
    }

    /// Counts that one.
    fn add_one(&mut self, wait: u64)
        ensures { (ended : ℕ) (waits : List ℕ) → wait ≡ capped ended →
            AreOf self.old waits → AreOf self.new (ended ∷ waits) }
    {
        count_wait(&mut self.buckets, wait);
        self.sum = more(self.sum, wait);
        self.count = more(self.count, 1);
    }
}

/// The buckets of no wait. A period has at most 65535 ticks.
fn no_buckets() -> [HistogramBucket; 16]
    ensures { result ≡ map (bucket_of []) bounds }
{
    [
        HistogramBucket::new(1),
        HistogramBucket::new(2),
        HistogramBucket::new(4),
        HistogramBucket::new(8),
        HistogramBucket::new(16),
        HistogramBucket::new(32),
        HistogramBucket::new(64),
        HistogramBucket::new(128),
        HistogramBucket::new(256),
        HistogramBucket::new(512),
        HistogramBucket::new(1024),
        HistogramBucket::new(2048),
        HistogramBucket::new(4096),
        HistogramBucket::new(8192),
        HistogramBucket::new(16384),
        HistogramBucket::new(32768),
    ]
}

/// Counts a wait in each bucket.
fn count_wait(buckets: &mut [HistogramBucket], wait: u64)
    ensures { buckets.new ≡ map (bucket_then wait) buckets.old }
{
    for bucket in buckets.iter_mut() {
        *bucket = bucket.after(wait);
    }
}

impl HistogramBucket {
    /// The bucket of no wait.
    fn new(bound: u64) -> HistogramBucket
        ensures { result ≡ bucket_of [] bound }
    {
        HistogramBucket { bound, count: 0 }
    }

    /// After a wait.
    fn after(self, wait: u64) -> HistogramBucket
        ensures { result ≡ bucket_then wait self }
    {
        HistogramBucket {
            bound: self.bound,
            count: more_if(self.count, wait <= self.bound),
        }
    }
}
