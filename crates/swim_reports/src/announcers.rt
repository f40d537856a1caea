//! The herald that logs that a life begins.

ghost use Rattle.std.specs.Prelude.{◌≡◌, ◌∷◌, ℕ, [], Some, map};
ghost use Rattle.swim_telling.specs.Notices.{Notices};
ghost use Rattle.swim_trail.specs.Noted.{value_in};
ghost use Rattle.swim_trail.specs.Growing.{Grows};

use crate::bulletins::Bulletin;
use crate::happenings::tell_changes;
use std::alloc::Global;
use std::net::Net;
use std::rt::Clock;
use std::sync::Wait;
use swim_notices::Notice;
use swim_telling::Herald;
use swim_text::Sink;
use swim_trail::Trail;

/// Logs that a life begins, and before that which changes of the life before it weren't logged yet; nothing if it is to
/// be quiet. A contract sees of which lives it was told.
#[derive(Drop)]
pub struct Announcer<'r, R> {
    rt: &'r R,
    alloc: Global,
    bulletin: &'r Bulletin,
    is_quiet: bool,
    begun: Trail<u64>,
}

impl<'r, R> Announcer<'r, R> {
    /// One who tells it in lines with the time, or is quiet. It was told of no life yet.
    pub fn new(rt: &'r R, alloc: Global, bulletin: &'r Bulletin, is_quiet: bool) -> Announcer<'r, R>
        ensures { result.begun.items ≡ [] }
    {
        Announcer {
            rt,
            alloc,
            bulletin,
            is_quiet,
            begun: Trail::new(),
        }
    }
}

impl<'r, R: Net + Clock + Wait> Herald for Announcer<'r, R> {
    ghost begun = { λ a. Some (map value_in a.begun.items) };

    #[tactic(auto, using(swim_telling::specs::Notices::no_notices, swim_trail::specs::Noted::map_more, crate::proofs::Noticed::two_noticed))]
    fn begins<F: Sink>(&mut self, number: u64, notices: &mut F)
        ensures begun { Grows (Some (map value_in self.old.begun.items)) (Some (map value_in self.new.begun.items))
            (number ∷ []) }
        ensures notices { Notices (F.written notices.old, F.failures notices.old)
            (F.written notices.new, F.failures notices.new) }
    {
        self.begun.note(&number, &[]);
        if !self.is_quiet {
            tell_changes(self.rt, self.rt, self.alloc, self.bulletin, notices);
            Notice::begins(self.rt, number).tell_notice(self.rt, self.alloc, notices);
        }
    }
}
