//! What is counted of a node's entries.

ghost use Rattle.std.specs.Prelude.{◌≡◌, ℕ, List, [], ◌∷◌, map};
ghost use Rattle.std.specs.Option.{option_to_list};
ghost use Rattle.swim_history.specs.declared.entries.Entry.{Entry};
ghost use Rattle.swim_history.specs.Setting.{Setting};
ghost use Rattle.swim_events.specs.Watched.{Lived, lived_on};
ghost use Rattle.swim_metrics.specs.Counting.{capped, comes_late};
ghost use Rattle.swim_metrics.specs.Following.{Count, begun};
ghost use Rattle.swim_metrics.specs.Waiting.{wait_ended};

use crate::counting::{count_if, more};
use crate::dropped::Dropped;
use crate::tests_of_entries::{
    asks_in, is_heard_by_relay, is_heard_directly, is_join, is_pinged, is_removal, is_served,
    is_tick, is_verdict, pings_in,
};
use crate::wait_histograms::Waits;
use swim_history::{Call, Reply};

/// What was counted of a node's entries, over all its lives. Each count stops at 2^64-1.
#[derive(Clone, Copy, Debug, PartialEq, Eq)]
pub struct EntryCounts {
    /// Ticks that were accepted.
    pub ticks: u64,
    /// Pings that were sent, those for other members among them.
    pub pings_sent: u64,
    /// Pings that came, whatever was answered.
    pub pings_heard: u64,
    /// Acks of the aim that came within its period, from the aim itself.
    pub heard_directly: u64,
    /// The same from relays.
    pub heard_by_relay: u64,
    /// Acks of own probes that came after the end of their periods.
    pub acks_late: u64,
    /// Relays that were asked to ping a member for us.
    pub asks_sent: u64,
    /// Requests of other members for which a member was pinged.
    pub requests_served: u64,
    /// Messages that were dropped.
    pub dropped: Dropped,
    /// Members that were judged failed.
    pub verdicts: u64,
    /// Members that joined, or joined again.
    pub joins: u64,
    /// Members that were removed.
    pub removals: u64,
    /// Lives that began.
    pub lives: u64,
    /// Entries of this life.
    pub entries: u64,
    /// How long the first acks of probes were waited for.
    pub waits: Waits,
}

impl EntryCounts {
    /// Nothing was counted yet.
    pub(crate) fn new() -> EntryCounts
        ensures { Count result [] }
    {
        EntryCounts {
            ticks: 0,
            pings_sent: 0,
            pings_heard: 0,
            heard_directly: 0,
            heard_by_relay: 0,
            acks_late: 0,
            asks_sent: 0,
            requests_served: 0,
            dropped: Dropped::new(),
            verdicts: 0,
            joins: 0,
            removals: 0,
            lives: 0,
            entries: 0,
            waits: Waits::new(),
        }
    }

    /// A life began.
    pub(crate) fn begin(&mut self)
        ensures { (number : ℕ) (o : Setting) (lives : List Lived) → Count self.old lives →
            Count self.new (begun number o lives) }
    {
        self.lives = more(self.lives, 1);
        self.entries = 0;
    }

    /// Counts an entry that ended that wait, if it ended one, and was a late ack or was not.
    pub(crate) fn add(&mut self, call: &Call, reply: &Reply, wait: Option<u64>, is_late: bool)
        ensures { (life : Lived) (older : List Lived) (e : Entry) → e.call ≡ call.now → e.reply ≡ reply.now →
            option_to_list wait ≡ map capped (wait_ended e life.past) →
            is_late ≡ comes_late life.opening life.past e →
            Count self.old (life ∷ older) → Count self.new (lived_on life e ∷ older) }
    {
        count_if(&mut self.ticks, is_tick(call, reply));
        self.pings_sent = more(self.pings_sent, pings_in(reply));
        count_if(&mut self.pings_heard, is_pinged(call));
        count_if(&mut self.heard_directly, is_heard_directly(call, reply));
        count_if(&mut self.heard_by_relay, is_heard_by_relay(call, reply));
        count_if(&mut self.acks_late, is_late);
        self.asks_sent = more(self.asks_sent, asks_in(reply));
        count_if(&mut self.requests_served, is_served(call, reply));
        self.dropped.add(reply);
        count_if(&mut self.verdicts, is_verdict(reply));
        count_if(&mut self.joins, is_join(call, reply));
        count_if(&mut self.removals, is_removal(call, reply));
        self.entries = more(self.entries, 1);
        self.waits.add(wait);
    }
}
