//! What a log tells of the member table's changes, a line each.

ghost use Rattle.swim_telling.specs.Notices.{Notices};

use crate::bulletins::Bulletin;
use std::alloc::Global;
use std::fmt::Write;
use std::net::Net;
use std::rt::Clock;
use std::sync::Wait;
use swim_notices::Notice;
use swim_text::Sink;
use swim_wire::{Id, Peer};

/// A change of the member table, or what else is known of a member, as the log tells it.
#[derive(Clone, Copy)]
pub enum Happening {
    /// A member was judged failed at the end of that period; and the last period in which it was heard, if that is
    /// known.
    Judged {
        id: Id,
        period: u64,
        heard: Option<u64>,
    },
    /// An operator let a member join at this address.
    Joined {
        id: Id,
        at: Peer,
    },
    /// The daemon let a member join again, so many periods after it was judged.
    JoinedAgain {
        id: Id,
        after: u64,
    },
    /// A member was removed.
    Removed {
        id: Id,
    },
    /// A member was heard by relays alone, in so many periods in a row in which it was probed.
    Relayed {
        id: Id,
        rounds: u64,
    },
}

// What stands in a list where there is room for more.
impl Default for Happening {
    fn default() -> Happening {
        Happening::Removed { id: Id::default() }
    }
}

impl Happening {
    /// Its line.
    pub fn notice<K: Clock>(self, clock: &K) -> Notice {
        let mut notice = Notice::begun(clock);
        let _is_added = match self {
            Happening::Judged { id, period, heard } => {
                let is_added = write!(notice, "judged {} in period {period}", id.get());
                match heard {
                    Some(heard) => write!(notice, ", last heard in period {heard}"),
                    None => is_added,
                }
            }
            Happening::Joined { id, at } => {
                let address = at.write();
                write!(notice, "joined {} at {}", id.get(), address.as_str())
            }
            Happening::JoinedAgain { id, after } => {
                write!(notice, "joined {} again, after {after} periods", id.get())
            }
            Happening::Removed { id } => write!(notice, "removed {}", id.get()),
            Happening::Relayed { id, rounds } => write!(
                notice,
                "{} was heard by relays alone for {rounds} rounds",
                id.get()
            ),
        };
        notice
    }
}

/// Tells the changes that wait on a bulletin.
#[tactic(auto, using(swim_telling::specs::Notices::no_notices))]
pub fn tell_changes<R: Net + Clock, T: Wait, F: Sink>(
    rt: &R,
    waiter: &T,
    alloc: Global,
    bulletin: &Bulletin,
    notices: &mut F,
)
    ensures { Notices (F.written notices.old, F.failures notices.old)
        (F.written notices.new, F.failures notices.new) }
{
    if let Some((waiting, more)) = bulletin.take(waiter) {
        tell_each(rt, alloc, waiting.as_slice(), more, notices);
    }
}

/// Tells these changes, and how many more there were.
#[tactic(auto, using(crate::proofs::Noticed::two_noticed))]
fn tell_each<R: Net + Clock, F: Sink>(
    rt: &R,
    alloc: Global,
    waiting: &[Happening],
    more: u64,
    notices: &mut F,
)
    ensures { Notices (F.written notices.old, F.failures notices.old)
        (F.written notices.new, F.failures notices.new) }
{
    let [first, others @ ..] = waiting else {
        return tell_unsaid(rt, alloc, more, notices);
    };
    first.notice(rt).tell_notice(rt, alloc, notices);
    tell_each(rt, alloc, others, more, notices);
}

/// Tells how many changes have no line, if there are any.
#[tactic(auto, using(swim_telling::specs::Notices::no_notices))]
fn tell_unsaid<R: Net + Clock, F: Sink>(rt: &R, alloc: Global, count: u64, notices: &mut F)
    ensures { Notices (F.written notices.old, F.failures notices.old)
        (F.written notices.new, F.failures notices.new) }
{
    if 0 < count {
        unsaid(rt, count).tell_notice(rt, alloc, notices);
    }
}

/// The line that says how many changes have none.
fn unsaid<K: Clock>(clock: &K, count: u64) -> Notice {
    let mut notice = Notice::begun(clock);
    let _is_added = write!(
        notice,
        "{count} changes more, too many at once to tell each"
    );
    notice
}
