//! Messages that were dropped, by their reasons.

ghost use Rattle.std.specs.Prelude.{◌≡◌, List, ◌∷◌, count_by};
ghost use Rattle.swim_history.specs.declared.entries.Entry.{Entry};
ghost use Rattle.swim_history.specs.declared.replies.DropReason.{DropReason as Reason};
ghost use Rattle.swim_metrics.specs.Counting.{capped, dropped_as, is_dropped_as};
ghost use Rattle.swim_metrics.specs.Following.{dropped_for};

use crate::counting::more_if;
use swim_history::{DropReason, Reply};

/// How many messages were dropped for each reason, as `DropReason` names them.
#[derive(Clone, Copy, Debug, Default, PartialEq, Eq)]
pub struct Dropped {
    pub not_for_me: u64,
    pub borrowed: u64,
    pub about_me: u64,
    pub unlisted: u64,
    pub table_full: u64,
    pub stray: u64,
    pub no_request: u64,
}

impl Dropped {
    /// None was dropped yet.
    pub(crate) fn new() -> Dropped
        ensures { (why : Reason) → dropped_for why result ≡ 0 }
    {
        Dropped {
            not_for_me: 0,
            borrowed: 0,
            about_me: 0,
            unlisted: 0,
            table_full: 0,
            stray: 0,
            no_request: 0,
        }
    }

    /// Counts a reply.
    pub(crate) fn add(&mut self, reply: &Reply)
        ensures { (h : List Entry) (e : Entry) → e.reply ≡ reply.now →
            ((why : Reason) → dropped_for why self.old ≡ capped (count_by (dropped_as why) h)) →
            (why : Reason) → dropped_for why self.new ≡ capped (count_by (dropped_as why) (e ∷ h)) }
    {
        self.not_for_me = more_if(self.not_for_me, is_dropped_as(DropReason::NotForMe, reply));
        self.borrowed = more_if(self.borrowed, is_dropped_as(DropReason::Borrowed, reply));
        self.about_me = more_if(self.about_me, is_dropped_as(DropReason::AboutMe, reply));
        self.unlisted = more_if(self.unlisted, is_dropped_as(DropReason::Unlisted, reply));
        self.table_full = more_if(self.table_full, is_dropped_as(DropReason::TableFull, reply));
        self.stray = more_if(self.stray, is_dropped_as(DropReason::Stray, reply));
        self.no_request = more_if(self.no_request, is_dropped_as(DropReason::NoRequest, reply));
    }
}

/// Whether a message was dropped for that reason.
fn is_dropped_as(why: DropReason, reply: &Reply) -> bool
    ensures { result ≡ is_dropped_as why reply.now }
{
    match reply {
        Reply::Dropped(other) => other.number() == why.number(),
        _ => false,
    }
}
