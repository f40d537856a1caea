//! What is left of lives that are over.

ghost use Rattle.std.specs.Prelude.{◌≡◌};
ghost use Rattle.swim_crew.specs.Ends.{counted, end_after, is_stopped, is_told, why_ended};

use swim_history::Journal;
use swim_work::{Counts, End, Why};

/// How the workers of a life ended.
#[derive(Clone, Copy)]
pub struct Ends {
    /// The worker with the first seat.
    pub first: End,
    /// The worker with the second seat.
    pub second: End,
    /// The worker with the third seat.
    pub third: End,
    /// Whether the first and the second worker each got a thread.
    pub all_began: bool,
}

impl Ends {
    /// Why the life ended: the gravest of the workers' reasons, of which `NoMemory` is one if a worker got no thread.
    pub(crate) fn why(&self) -> Why
        ensures { result ≡ why_ended self.now }
    {
        let began = if self.all_began {
            Why::Stopped
        } else {
            Why::NoMemory
        };
        let first = self.first.why.unwrap_or(Why::Stopped);
        let second = self.second.why.unwrap_or(Why::Stopped);
        let third = self.third.why.unwrap_or(Why::Stopped);
        first.or(second).or(third).or(began)
    }

    /// Whether a worker ended because it was told to stop.
    fn is_stopped(&self) -> bool
        ensures { result ≡ is_stopped self.now }
    {
        is_told(self.first.why) | is_told(self.second.why) | is_told(self.third.why)
    }

    /// What all three workers counted. Each count stops at 2^64-1.
    fn counts(&self) -> Counts
        ensures { result ≡ counted self.now }
    {
        self.first
            .counts
            .and(self.second.counts)
            .and(self.third.counts)
    }
}

/// Whether a worker that ended for this reason was told to stop.
fn is_told(why: Option<Why>) -> bool
    ensures { result ≡ is_told why }
{
    matches!(why, Some(Why::Stopped))
}

/// What is left of a life.
#[derive(Drop)]
pub struct Past {
    /// Everything that happened, in one order.
    pub journal: Journal,
    /// Why the life ended: the gravest reason of all.
    pub why: Why,
    /// How its workers ended.
    pub ends: Ends,
}

impl Past {
    /// Whether a worker ended because it was told to stop, whatever the life ended for.
    pub fn is_stopped(&self) -> bool
        ensures { result ≡ is_stopped self.now.ends }
    {
        self.ends.is_stopped()
    }

    /// The number of datagrams that couldn't be sent, up to 2^64-1.
    pub fn unsent(&self) -> u64
        ensures { result ≡ (counted self.now.ends).unsent }
    {
        self.ends.counts().unsent
    }

    /// The number of datagrams that arrived and weren't of this protocol, up to 2^64-1.
    pub fn wire(&self) -> u64
        ensures { result ≡ (counted self.now.ends).wire }
    {
        self.ends.counts().wire
    }

    /// The number of calls that were refused because there was no memory, up to 2^64-1.
    pub fn refused(&self) -> u64
        ensures { result ≡ (counted self.now.ends).refused }
    {
        self.ends.counts().refused
    }

    /// Why no other life follows this one, or `None` if one does: only a full journal is followed, and not if a worker
    /// was told to stop as well.
    pub fn end(&self) -> Option<LivesEnd>
        ensures { result ≡ end_after self.now }
    {
        match self.why {
            Why::JournalFull if self.is_stopped() => Some(LivesEnd::Stopped),
            Why::JournalFull => None,
            Why::NoMemory => Some(LivesEnd::NoMemory),
            Why::Socket => Some(LivesEnd::Socket),
            Why::Stopped => Some(LivesEnd::Stopped),
        }
    }
}

/// What stays the same from life to life.
#[derive(Clone, Copy, Debug)]
pub struct Terms {
    /// All lives draw from this seed, each from a stream of its own.
    pub seed: [u8; 32],
    /// The most entries of a journal.
    pub limit: u32,
}

/// Why the lives ended.
#[derive(Clone, Copy, Debug, PartialEq, Eq)]
pub enum LivesEnd {
    /// A worker was told to stop.
    Stopped,
    /// A worker gave up on its line or its door.
    Socket,
    /// There was no memory for a node or for a thread.
    NoMemory,
    /// A node got no reader of its member table.
    NoPlace,
}
