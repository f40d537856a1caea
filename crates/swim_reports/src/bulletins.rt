//! What the worker that reads the journal hands to the worker at the door, who tells it to people: changes for the log,
//! and what was counted. Neither waits for the other longer than it takes to copy it.

ghost use Rattle.std.specs.Prelude.{◌≡◌};

use crate::happenings::Happening;
use crate::totals::Totals;
use arrayvec::ArrayVec;
use std::mem;
use std::sync::atomic::{AtomicU64, Ordering};
use std::sync::{Mutex, Wait};
use swim_metrics::{Measures, OddSenders};

/// How many changes wait to be told at most.
const MOST_WAITING: usize = 128;

/// Changes that wait to be told.
pub type Waiting = ArrayVec<Happening, MOST_WAITING>;

/// What was counted until now, over all lives.
#[derive(Drop)]
pub struct Counted {
    /// Of the journals' entries.
    pub measures: Measures,
    /// Entries of this life that weren't read yet.
    pub behind: u64,
    /// Beside the entries, of all lives.
    pub totals: Totals,
    /// How many watch.
    pub watchers: u64,
    /// Joins that the daemon made by itself.
    pub own_joins: u64,
}

impl Counted {
    /// The same.
    fn copy(&self) -> Counted
        ensures { result ≡ self.now }
    {
        Counted {
            measures: self.measures.copy(),
            behind: self.behind,
            totals: self.totals,
            watchers: self.watchers,
            own_joins: self.own_joins,
        }
    }
}

/// What stands on a bulletin.
#[derive(Drop)]
struct Sheet {
    counted: Option<Counted>,
    waiting: Waiting,
    // Changes for which there was no room.
    unsaid: u64,
}

/// A bulletin, which two threads share.
#[derive(Drop)]
pub struct Bulletin {
    sheet: Mutex<Sheet>,
    unwritten: AtomicU64,
}

impl Bulletin {
    /// Nothing stands on it.
    pub(crate) fn new() -> Bulletin {
        Bulletin {
            sheet: Mutex::new(Sheet {
                counted: None,
                waiting: ArrayVec::new(),
                unsaid: 0,
            }),
            unwritten: AtomicU64::new(0),
        }
    }

    /// Counts that the metrics couldn't be written to their file: how often before.
    pub fn count_unwritten(&self) -> u64 {
        self.unwritten.fetch_add(1, Ordering::SeqCst)
    }

    /// How often the metrics couldn't be written to their file.
    pub(crate) fn unwritten(&self) -> u64 {
        self.unwritten.load(Ordering::SeqCst)
    }

    /// Puts a change on it, if there is room.
    pub(crate) fn add<R: Wait>(&self, rt: &R, happening: Happening) {
        let mut sheet = self.sheet.lock(rt);
        if sheet.waiting.try_push(happening).is_err() {
            sheet.unsaid = sheet.unsaid.saturating_add(1);
        }
    }

    /// Takes the changes off it, if there are some, and how many there was no room for.
    pub(crate) fn take<R: Wait>(&self, rt: &R) -> Option<(Waiting, u64)> {
        let mut sheet = self.sheet.lock(rt);
        if sheet.waiting.is_empty() {
            return None;
        }
        let waiting = mem::replace(&mut sheet.waiting, ArrayVec::new());
        let unsaid = mem::replace(&mut sheet.unsaid, 0);
        Some((waiting, unsaid))
    }

    /// Puts on it what was counted until now.
    pub(crate) fn show<R: Wait>(&self, rt: &R, counted: Counted) {
        self.sheet.lock(rt).counted = Some(counted);
    }

    /// The messages until now whose senders aren't as the member table has them, once a life has begun.
    pub fn odd<R: Wait>(&self, rt: &R) -> Option<OddSenders> {
        let sheet = self.sheet.lock(rt);
        Some(sheet.counted.as_ref()?.measures.odd)
    }

    /// What was counted until now, once a life has begun.
    pub(crate) fn counted<R: Wait>(&self, rt: &R) -> Option<Counted> {
        let sheet = self.sheet.lock(rt);
        Some(sheet.counted.as_ref()?.copy())
    }
}
