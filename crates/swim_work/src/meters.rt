//! What the workers of a life count, as others can read it while they work.

ghost use Rattle.std.specs.Prelude.{◌≡◌};
ghost use Rattle.swim_work.specs.Ends.{both};

use crate::counts::Counts;
use std::sync::atomic::{AtomicU64, Ordering};

/// What was counted until now.
#[derive(Clone, Copy, Debug, PartialEq, Eq)]
pub struct Metered {
    /// Calls that were accepted: entries of the journal.
    pub calls: u64,
    /// Datagrams that couldn't be sent.
    pub unsent: u64,
    /// Datagrams that came and were none of this protocol.
    pub wire: u64,
    /// Calls that were refused for want of memory.
    pub refused: u64,
    /// Knocks at members that were judged.
    pub knocks: u64,
}

impl Metered {
    /// Both together. Each count stops at 2^64-1.
    fn and(self, other: Metered) -> Metered
        ensures calls { result.calls ≡ both self.calls other.calls }
        ensures unsent { result.unsent ≡ both self.unsent other.unsent }
        ensures wire { result.wire ≡ both self.wire other.wire }
        ensures refused { result.refused ≡ both self.refused other.refused }
        ensures knocks { result.knocks ≡ both self.knocks other.knocks }
    {
        Metered {
            calls: self.calls.saturating_add(other.calls),
            unsent: self.unsent.saturating_add(other.unsent),
            wire: self.wire.saturating_add(other.wire),
            refused: self.refused.saturating_add(other.refused),
            knocks: self.knocks.saturating_add(other.knocks),
        }
    }
}

/// What a worker counted until now. The worker alone changes it.
pub struct Meter {
    calls: AtomicU64,
    unsent: AtomicU64,
    wire: AtomicU64,
    refused: AtomicU64,
    knocks: AtomicU64,
}

// By hand, so that whoever holds one proves a single call where it is dropped, and not each field.
impl Drop for Meter {
    fn drop(self) {
        let Meter {
            calls: _,
            unsent: _,
            wire: _,
            refused: _,
            knocks: _,
        } = self;
    }
}

impl Meter {
    /// Nothing was counted yet.
    fn new() -> Meter {
        Meter {
            calls: AtomicU64::new(0),
            unsent: AtomicU64::new(0),
            wire: AtomicU64::new(0),
            refused: AtomicU64::new(0),
            knocks: AtomicU64::new(0),
        }
    }

    /// Shows how many calls the worker made, and what it counted beside them.
    pub fn show(&self, calls: usize, counts: Counts) {
        show(&self.calls, calls as u64);
        show(&self.unsent, counts.unsent);
        show(&self.wire, counts.wire);
        show(&self.refused, counts.refused);
    }

    /// Shows how often the worker knocked.
    pub fn show_knocks(&self, knocks: u64) {
        show(&self.knocks, knocks);
    }

    fn read(&self) -> Metered {
        Metered {
            calls: self.calls.load(Ordering::SeqCst),
            unsent: self.unsent.load(Ordering::SeqCst),
            wire: self.wire.load(Ordering::SeqCst),
            refused: self.refused.load(Ordering::SeqCst),
            knocks: self.knocks.load(Ordering::SeqCst),
        }
    }
}

/// Stores a count, where it is another one: most aren't, and a load is cheaper than a store.
fn show(shown: &AtomicU64, count: u64) {
    if shown.load(Ordering::SeqCst) != count {
        shown.store(count, Ordering::SeqCst);
    }
}

/// The meters of the three workers that call the node, each by the number of its seat.
#[derive(Drop)]
pub struct Meters {
    /// Who calls with the first seat.
    pub first: Meter,
    /// Who calls with the second.
    pub second: Meter,
    /// Who calls with the third.
    pub third: Meter,
}

impl Meters {
    /// Nothing was counted yet.
    pub fn new() -> Meters {
        Meters {
            first: Meter::new(),
            second: Meter::new(),
            third: Meter::new(),
        }
    }

    /// What all of them counted until now.
    pub fn read(&self) -> Metered {
        self.first
            .read()
            .and(self.second.read())
            .and(self.third.read())
    }
}
