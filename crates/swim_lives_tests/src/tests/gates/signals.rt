//! What gates tell each other, and how they wait for it.

use std::rt::Clock;
use std::sync::atomic::{AtomicBool, AtomicU32, Ordering};
use std::thread;
use std::time::Duration;

/// How many turns a gate waits for another. After that it gives up, and the test's signals stay unset.
pub const TURNS: u32 = 100_000;

/// Which calls may fail.
#[derive(Clone, Copy, Debug, PartialEq, Eq)]
pub enum Failing {
    /// A receive of the line.
    Line,
    /// A send of one of the posts.
    Post,
    /// The question to the door who came.
    Door,
    /// A look at the operator's connection.
    Reader,
    /// A part of an answer to the operator.
    Answers,
    /// The shelf's opening of a file.
    Open,
    /// Its taking back of one.
    Close,
    /// A part of a file.
    File,
    /// A file's handing on of what it has.
    FileSent,
    /// A part of a line that tells how a life ended.
    Lines,
    /// The handing on of such a line.
    LinesSent,
}

/// What the gates of a life tell each other.
pub struct Signals {
    /// Operators may come.
    pub is_open: AtomicBool,
    /// The members were listed.
    pub is_listed: AtomicBool,
    /// The last fault was met.
    pub is_failing: AtomicBool,
    /// The ack was sent.
    pub is_acked: AtomicBool,
    /// The life is stopping.
    pub is_stopping: AtomicBool,
    /// The operator's connection failed.
    pub is_broken: AtomicBool,
    /// A call failed that was to fail.
    pub has_failed: AtomicBool,
    /// Of which calls one fails, and behind how many.
    failing: Option<(Failing, u32)>,
    /// So many of these were made.
    calls: AtomicU32,
    /// So often the line was asked.
    pub receives: AtomicU32,
}

// By hand, so that whoever holds one proves a single call where it is dropped, and not each field.
impl Drop for Signals {
    fn drop(self) {
        let Signals {
            is_open: _,
            is_listed: _,
            is_failing: _,
            is_acked: _,
            is_stopping: _,
            is_broken: _,
            has_failed: _,
            failing: _,
            calls: _,
            receives: _,
        } = self;
    }
}

impl Signals {
    /// None is set but the first two, the second where it is to be. No call fails.
    pub fn new(is_listed: bool) -> Signals {
        Signals::made(true, is_listed, None)
    }

    /// None is set. Of these calls one fails, behind so many that don't.
    pub fn failing(of: Failing, place: u32) -> Signals {
        Signals::made(false, false, Some((of, place)))
    }

    fn made(is_open: bool, is_listed: bool, failing: Option<(Failing, u32)>) -> Signals {
        Signals {
            is_open: AtomicBool::new(is_open),
            is_listed: AtomicBool::new(is_listed),
            is_failing: AtomicBool::new(false),
            is_acked: AtomicBool::new(false),
            is_stopping: AtomicBool::new(false),
            is_broken: AtomicBool::new(false),
            has_failed: AtomicBool::new(false),
            failing,
            calls: AtomicU32::new(0),
            receives: AtomicU32::new(0),
        }
    }

    /// Counts such a call, and returns whether it is the one that fails.
    pub fn fails(&self, of: Failing) -> bool {
        let Some((failing, place)) = self.failing else {
            return false;
        };
        if failing != of || self.calls.fetch_add(1, Ordering::SeqCst) != place {
            return false;
        }
        set(&self.has_failed);
        true
    }
}

/// Whether it is set.
pub fn is_set(signal: &AtomicBool) -> bool {
    signal.load(Ordering::SeqCst)
}

/// Sets it.
pub fn set(signal: &AtomicBool) {
    signal.store(true, Ordering::SeqCst);
}

/// Waits for 50 microseconds.
pub fn pause<K: Clock>(clock: &K) {
    thread::sleep(clock, Duration::from_micros(50));
}
