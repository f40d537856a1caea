//! Where a fence takes the time from.

ghost use Rattle.std.specs.Prelude.{◌≡◌, ◌≤◌, ◌-◌, ◌^◌, min};
ghost use Rattle.std.specs.Duration.{as_nanos};

use std::rt::Clock;
use std::time::Duration;

/// Where the time comes from.
pub trait Timepiece {
    ghost use Rattle.std.specs.Prelude.{ℕ};

    // the time that it told last, in nanoseconds; 0 before the first
    ghost time: { Self → ℕ };

    /// The time now, in nanoseconds since some moment. It isn't set back.
    fn now(&mut self) -> u64
        ensures told { result ≡ time self.new }
        ensures later { time self.old ≤ time self.new };
}

/// The time by a clock. While that can't be read, or reads a time that was over, it stands still.
#[derive(Drop)]
pub struct ClockTimepiece<K: Clock + Drop> {
    clock: K,
    told: u64,
}

impl<K: Clock + Drop> ClockTimepiece<K> {
    /// The time by that clock. It is 0 until the clock could be read.
    pub fn new(clock: K) -> ClockTimepiece<K> {
        ClockTimepiece { clock, told: 0 }
    }
}

impl<K: Clock + Drop> Timepiece for ClockTimepiece<K> {
    ghost time = { λ t. t.told };

    fn now(&mut self) -> u64 {
        if let Ok(time) = self.clock.monotonic() {
            self.told = self.told.max(nanoseconds(time));
        }
        self.told
    }
}

/// A time in nanoseconds. It stops at 2^64-1, after five hundred years.
fn nanoseconds(time: Duration) -> u64
    ensures { result ≡ min (as_nanos time) (2 ^ 64 - 1) }
{
    u64::try_from(time.as_nanos()).unwrap_or(u64::MAX)
}
