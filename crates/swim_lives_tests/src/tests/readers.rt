//! Those who watch, and what they were sent.

ghost use Rattle.std.specs.Prelude.{None};

use super::gates::{is_set, set};
use std::sync::atomic::{AtomicBool, AtomicUsize, Ordering};
use swim_events::{Entrance, Offer, Outlet};

/// Who of those that watch.
#[derive(Clone, Copy)]
pub enum Who {
    Early,
    Late,
    Slow,
}

/// How many bytes one was sent who watches, and whether any was another than is expected.
#[derive(Drop)]
struct Count {
    bytes: AtomicUsize,
    has_other: AtomicBool,
}

impl Count {
    fn new() -> Count {
        Count {
            bytes: AtomicUsize::new(0),
            has_other: AtomicBool::new(false),
        }
    }
}

/// What those who watch were sent.
pub struct Seen {
    early: Count,
    late: Count,
    slow: Count,
}

// By hand, so that whoever holds one proves a single call where it is dropped, and not each field.
impl Drop for Seen {
    fn drop(self) {
        let Seen {
            early: _,
            late: _,
            slow: _,
        } = self;
    }
}

impl Seen {
    pub fn new() -> Seen {
        Seen {
            early: Count::new(),
            late: Count::new(),
            slow: Count::new(),
        }
    }

    fn count(&self, who: Who) -> &Count {
        match who {
            Who::Early => &self.early,
            Who::Late => &self.late,
            Who::Slow => &self.slow,
        }
    }

    /// Whether so many bytes were sent, and all are those that are expected.
    pub fn is_all(&self, who: Who, bytes: usize) -> bool {
        let count = self.count(who);
        count.bytes.load(Ordering::SeqCst) == bytes && !is_set(&count.has_other)
    }
}

/// When one has been sent so many bytes.
#[derive(Clone, Copy)]
pub struct Moment<'s> {
    seen: &'s Seen,
    who: Who,
    bytes: usize,
}

impl<'s> Moment<'s> {
    pub fn of(seen: &'s Seen, who: Who, bytes: usize) -> Moment<'s> {
        Moment { seen, who, bytes }
    }

    pub fn is_here(&self) -> bool {
        self.seen.count(self.who).bytes.load(Ordering::SeqCst) >= self.bytes
    }
}

/// One who takes nothing until a moment, and all from then on. The bytes behind the first so many are those that are
/// expected.
#[derive(Drop)]
pub struct Reader<'s> {
    seen: &'s Seen,
    who: Who,
    expected: &'static [u8],
    skipped: usize,
    moment: Moment<'s>,
}

impl<'s> Reader<'s> {
    /// It takes all at once.
    pub fn new(seen: &'s Seen, who: Who, expected: &'static [u8]) -> Reader<'s> {
        Reader {
            seen,
            who,
            expected,
            skipped: 0,
            moment: Moment::of(seen, who, 0),
        }
    }

    /// It waits for that moment, and what it is sent of a full buffer is let be.
    pub fn after(
        moment: Moment<'s>,
        who: Who,
        expected: &'static [u8],
        skipped: usize,
    ) -> Reader<'s> {
        Reader {
            seen: moment.seen,
            who,
            expected,
            skipped,
            moment,
        }
    }

    fn read(&self, byte: u8) {
        let count = self.seen.count(self.who);
        let place = count.bytes.fetch_add(1, Ordering::SeqCst);
        let Some(place) = place.checked_sub(self.skipped) else {
            return;
        };
        if self.expected.get(place) != Some(&byte) {
            set(&count.has_other);
        }
    }
}

impl<'s> Outlet for Reader<'s> {
    ghost taken = { λ r. None };

    ghost offers = { λ r. None };

    fn offer(&mut self, bytes: &[u8]) -> Offer {
        if !self.moment.is_here() {
            return Offer::Full;
        }
        for byte in bytes {
            self.read(*byte);
        }
        Offer::Took(bytes.len())
    }
}

/// An entrance by which one comes at most, at a moment.
#[derive(Drop)]
pub struct Gate<'s> {
    moment: Moment<'s>,
    reader: Option<Reader<'s>>,
}

impl<'s> Gate<'s> {
    pub fn new(moment: Moment<'s>, reader: Reader<'s>) -> Gate<'s> {
        Gate {
            moment,
            reader: Some(reader),
        }
    }

    /// Nobody comes.
    pub fn shut(moment: Moment<'s>) -> Gate<'s> {
        Gate {
            moment,
            reader: None,
        }
    }
}

impl<'s> Entrance<Reader<'s>> for Gate<'s> {
    fn next(&mut self) -> Option<Reader<'s>> {
        if !self.moment.is_here() {
            return None;
        }
        self.reader.take()
    }

    // The time stands still, so that nobody is given up.
    fn now(&mut self) -> u64 {
        0
    }
}
