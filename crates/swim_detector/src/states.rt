//! What a detector remembers beside its journal.

mod addresses;
mod changing;
mod hearing;
mod members;
mod ticking;

ghost use Rattle.std.specs.Prelude.{◌≡◌, ◌≤◌, [], length, filter, true};
ghost use Rattle.swim_history.specs.Setting.{ids_of, is_state_up};
ghost use Rattle.swim_detector.specs.Mirrors.{Mirrors, IsAnswered, choice_after};

use swim_history::{Call, Choice, Journal, KNOWN_MEMBERS, Opening, Order, Reply, Row, RowState};
use swim_relays::Relays;
use swim_targets::{Chooser, Targets};
use swim_wire::Id;

/// What a detector remembers beside its journal: the members of the round, the requests that wait, the
/// aim of the period and whether an ack of it was heard, and how many ticks of the period passed.
#[derive(Drop)]
pub(crate) struct State {
    targets: Targets,
    requests: Relays,
    aim: Option<Id>,
    heard: bool,
    phase: u32,
}

impl State {
    /// The state of a detector that wasn't called yet.
    pub(crate) fn new(opening: &Opening) -> State
        ensures { Mirrors opening.now [] result }
    {
        State {
            targets: round_of(opening),
            requests: Relays::new(opening.period()),
            aim: None,
            heard: false,
            phase: 0,
        }
    }

    /// Answers a call that follows the journal, and tells whether a round begins by it. The order that was drawn is
    /// then that in which the members are listed.
    // What answers writes the reply where it is to stand, since a reply is large to be moved.
    pub(crate) fn answer<C: Chooser>(
        &mut self,
        journal: &Journal,
        chooser: &mut C,
        call: &Call,
        reply: &mut Reply,
        begins_round: &mut bool,
    )
        requires { Mirrors journal.now.opening journal.now.past self.old }
        ensures { IsAnswered C.orders C.places journal.now.opening journal.now.past
            call.now (record { reply = reply.new; begins_round = begins_round.new }) self.new chooser.old chooser.new }
    {
        *begins_round = false;
        match call {
            Call::Tick => self.tick(journal, chooser, reply, begins_round),
            Call::Hear(source, message) => self.hear(journal, message, *source, reply),
            Call::Join(id, peer) => self.join(journal, chooser, *id, *peer, reply),
            Call::Remove(id) => self.remove(journal, *id, reply),
        }
    }

    /// The order of the round that just began.
    pub(crate) fn round(&self) -> Choice
        ensures { result ≡ choice_after true self.now.targets }
    {
        Choice::Round(self.targets.members())
    }
}

/// The round before the first: all members that are up were probed.
fn round_of(opening: &Opening) -> Targets
    ensures { result ≡ record { probed = ids_of (filter (λ row. is_state_up row.state) opening.now.rows); rest = [] } }
{
    match Targets::open(members_up(opening.rows()).as_slice()) {
        Ok(targets) => targets,
        Err(_) => unreachable!(),
    }
}

/// The members that are up, in order.
fn members_up(rows: &[Row]) -> Order
    requires { length rows.now ≤ KNOWN_MEMBERS }
    ensures { result.items ≡ ids_of (filter (λ row. is_state_up row.state) rows.now) }
{
    let mut members = Order::new();
    for row in rows {
        if row.state == RowState::Up {
            members.push(row.id);
        }
    }
    members
}
