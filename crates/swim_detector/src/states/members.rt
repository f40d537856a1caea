//! Joins and removals (section 4.3 of the SWIM paper).

ghost use Rattle.std.specs.Prelude.{◌≡◌, ◌≢◌, ◌==◌, None, option_and_then};
ghost use Rattle.swim_wire.specs.Address.{Address};
ghost use Rattle.swim_history.specs.Aim.{unless};
ghost use Rattle.swim_history.specs.declared.calls.Call.TheVariants.{Join, Remove};
ghost use Rattle.swim_history.specs.declared.replies.Reply.TheVariants.{Refused};
ghost use Rattle.swim_history.specs.declared.entries.Choice.TheVariants.{Nothing};
ghost use Rattle.swim_history.specs.Rows.{row_of};
ghost use Rattle.swim_history.specs.Run.{Answers};
ghost use Rattle.swim_detector.specs.Mirrors.{Mirrors, IsAnswered, IsSettled, plain, MayList, JoinsOr, RemovesOr};

use super::State;
use swim_history::{Call, Journal, KNOWN_MEMBERS, Refusal, Reply, RowState};
use swim_targets::Chooser;
use swim_wire::{Id, Peer};

impl State {
    /// A member is to be listed.
    // Out of line, so that its locals are cleared only where it is called.
    #[inline(never)]
    pub(super) fn join<C: Chooser>(
        &mut self,
        journal: &Journal,
        chooser: &mut C,
        id: Id,
        peer: Peer,
        reply: &mut Reply,
    )
        requires { Mirrors journal.now.opening journal.now.past self.old }
        ensures { IsAnswered C.orders C.places journal.now.opening journal.now.past
            (Join id peer) (plain reply.new) self.new chooser.old chooser.new }
    {
        match refusal_to_join(journal, id) {
            Some(refusal) => self.refuse(journal, &Call::Join(id, peer), refusal, reply),
            None => self.list(journal, chooser, id, reply),
        }
    }

    /// The joiner is listed at a place that the chooser draws.
    fn list<C: Chooser>(&mut self, journal: &Journal, chooser: &mut C, id: Id, reply: &mut Reply)
        requires mirrors { Mirrors journal.now.opening journal.now.past self.old }
        requires listing { MayList journal.now.opening journal.now.past id }
        ensures { (peer : Address) → IsAnswered C.orders C.places journal.now.opening journal.now.past
            (Join id peer) (plain reply.new) self.new chooser.old chooser.new }
    {
        match self.targets.join(id, chooser) {
            Ok(place) => *reply = Reply::Joined { place },
            Err(_) => unreachable!(),
        }
    }

    /// A member is to be forgotten.
    // Out of line, so that its locals are cleared only where it is called.
    #[inline(never)]
    pub(super) fn remove(&mut self, journal: &Journal, id: Id, reply: &mut Reply)
        requires { Mirrors journal.now.opening journal.now.past self.old }
        ensures { IsSettled journal.now.opening journal.now.past (Remove id) (plain reply.new) self.new }
    {
        match refusal_to_remove(journal, id) {
            Some(refusal) => self.refuse(journal, &Call::Remove(id), refusal, reply),
            None => self.forget(journal, id, reply),
        }
    }

    /// The member is known no more, and is no aim.
    fn forget(&mut self, journal: &Journal, id: Id, reply: &mut Reply)
        requires mirrors { Mirrors journal.now.opening journal.now.past self.old }
        requires other { id ≢ journal.now.opening.me }
        requires known { row_of journal.now.opening journal.now.past id ≢ None }
        ensures { IsSettled journal.now.opening journal.now.past (Remove id) (plain reply.new) self.new }
    {
        self.targets.remove(id);
        self.aim = unless_removed(self.aim, id);
        *reply = Reply::Removed;
    }

    /// A call is refused.
    pub(super) fn refuse(&self, journal: &Journal, call: &Call, refusal: Refusal, reply: &mut Reply)
        requires mirrors { Mirrors journal.now.opening journal.now.past self.now }
        requires fits { Answers journal.now.opening journal.now.past call.now (Refused refusal) Nothing }
        ensures { IsSettled journal.now.opening journal.now.past call.now (plain reply.new) self.now }
    {
        *reply = Reply::Refused(refusal);
    }
}

/// The aim, unless it is the removed member.
fn unless_removed(aim: Option<Id>, removed: Id) -> Option<Id>
    ensures { result ≡ option_and_then (λ m. unless (removed == m) m) aim }
{
    match aim {
        Some(target) if target != removed => Some(target),
        _ => None,
    }
}

/// Why a member is not listed, if it isn't.
pub(super) fn refusal_to_join(journal: &Journal, id: Id) -> Option<Refusal>
    ensures { JoinsOr journal.now.opening journal.now.past id result }
{
    if id == journal.opening().me() {
        return Some(Refusal::Myself);
    }
    match journal.row(id) {
        Some(row) => match row.state {
            RowState::Up => Some(Refusal::Listed),
            RowState::Failed(_) => None,
        },
        None if journal.known() == KNOWN_MEMBERS => Some(Refusal::Full),
        None => None,
    }
}

/// Why a member is not removed, if it isn't.
pub(super) fn refusal_to_remove(journal: &Journal, id: Id) -> Option<Refusal>
    ensures { RemovesOr journal.now.opening journal.now.past id result }
{
    if id == journal.opening().me() {
        return Some(Refusal::Myself);
    }
    match journal.row(id) {
        Some(_) => None,
        None => Some(Refusal::Unknown),
    }
}
