//! The period that runs.

ghost use Rattle.std.specs.Prelude.{◌≡◌, List, [], ◌∷◌, map};
ghost use Rattle.std.specs.Option.{option_to_list};
ghost use Rattle.swim_history.specs.declared.entries.Entry.{Entry};
ghost use Rattle.swim_metrics.specs.Counting.{capped};
ghost use Rattle.swim_metrics.specs.Following.{Runs};
ghost use Rattle.swim_metrics.specs.Waiting.{wait_ended};

use crate::counting::more_if;
use crate::tests_of_entries::{is_heard, is_start, is_tick};
use swim_history::{Call, Reply};

/// How many ticks there were since the period began, and whether its aim was heard.
#[derive(Clone, Copy)]
pub(crate) struct Period {
    pub(crate) waited: u64,
    pub(crate) heard: bool,
}

impl Period {
    /// Nothing happened yet.
    pub(crate) fn new() -> Period
        ensures { Runs result.waited result.heard [] }
    {
        Period {
            waited: 0,
            heard: false,
        }
    }

    /// The wait, in ticks, that an entry ends, if it is the first ack of the aim.
    pub(crate) fn wait_ended(&self, call: &Call, reply: &Reply) -> Option<u64>
        ensures { (h : List Entry) (e : Entry) → e.call ≡ call.now → e.reply ≡ reply.now →
            Runs self.now.waited self.now.heard h → option_to_list result ≡ map capped (wait_ended e h) }
    {
        if is_heard(call, reply) && !self.heard {
            Some(self.waited)
        } else {
            None
        }
    }

    /// The period after an entry.
    pub(crate) fn after(&self, call: &Call, reply: &Reply) -> Period
        ensures { (h : List Entry) (e : Entry) → e.call ≡ call.now → e.reply ≡ reply.now →
            Runs self.now.waited self.now.heard h → Runs result.waited result.heard (e ∷ h) }
    {
        if is_start(reply) {
            return Period::new();
        }
        Period {
            waited: more_if(self.waited, is_tick(call, reply)),
            heard: self.heard || is_heard(call, reply),
        }
    }
}
