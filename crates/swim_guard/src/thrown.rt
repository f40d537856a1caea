//! What a line throws away.

ghost use Rattle.std.specs.Prelude.{◌≡◌, None, Some};
ghost use Rattle.swim_guard.specs.Thrown.{one_thrown};

use swim_wire::Peer;
use swim_work::Line;

/// How many datagrams were thrown away, a count that stops at 2^64-1, and where the newest of them came from.
#[derive(Clone, Copy, Debug, Drop, PartialEq, Eq)]
pub struct Thrown {
    pub count: u64,
    pub newest: Option<Peer>,
}

impl Thrown {
    pub(crate) fn none() -> Thrown
        ensures { result ≡ record { count = 0; newest = None } }
    {
        Thrown {
            count: 0,
            newest: None,
        }
    }

    /// One more is.
    pub(crate) fn one_more(&mut self, source: Peer)
        ensures { self.new ≡ one_thrown (Some source) self.old }
    {
        self.count = self.count.saturating_add(1);
        self.newest = Some(source);
    }
}

/// A line that throws datagrams away.
pub trait Sieve: Line {
    ghost use Rattle.swim_guard.specs.declared.thrown.Thrown.{Thrown};

    // what it threw away so far
    ghost thrown_away: { Self → Thrown };

    /// What it threw away so far.
    fn thrown(&self) -> Thrown
        ensures { result ≡ thrown_away self.now };
}
