//! Connections that were turned away because too few descriptors were left, as the threads of a daemon count them.

use std::fmt::Write;
use std::rt::Clock;
use std::sync::atomic::{AtomicU64, Ordering};
use swim_notices::Notice;

/// How many connections were turned away, operators' and watchers'. Threads share it.
#[derive(Drop)]
pub struct Refusals {
    count: AtomicU64,
}

impl Refusals {
    /// None was.
    pub(crate) fn new() -> Refusals {
        Refusals {
            count: AtomicU64::new(0),
        }
    }

    /// So many more were turned away.
    pub fn add(&self, more: u64) {
        self.count.fetch_add(more, Ordering::SeqCst);
    }

    /// How many were turned away so far.
    pub fn count(&self) -> u64 {
        self.count.load(Ordering::SeqCst)
    }
}

/// The line that tells how many connections were turned away so far.
pub fn refused<K: Clock>(clock: &K, count: u64) -> Notice {
    let mut notice = Notice::begun(clock);
    let _is_added = write!(
        notice,
        "connections are turned away, as too few descriptors are left, refused {count}"
    );
    notice
}
