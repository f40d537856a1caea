//! What a call would do to the member table.

ghost use Rattle.std.specs.Prelude.{◌≡◌, ◌≢◌, ◌<◌};
ghost use Rattle.std.specs.Option.{option_map};
ghost use Rattle.swim_history.specs.declared.calls.Call.TheVariants.{Tick, Join, Remove};
ghost use Rattle.swim_history.specs.declared.rows.Change.TheVariants as changes;
ghost use Rattle.swim_history.specs.Clock.{phase, period_number};
ghost use Rattle.swim_history.specs.Run.{greatest_number};
ghost use Rattle.swim_detector.specs.Mirrors.{Mirrors};
ghost use Rattle.swim_detector.specs.Recording.{IsChangeOf};

use super::State;
use super::members::{refusal_to_join, refusal_to_remove};
use super::ticking::unheard;
use swim_history::{Call, Change, Journal};
use swim_wire::{Id, Peer};

impl State {
    /// The change that a call would make now, if it would make one.
    pub(crate) fn change(&self, journal: &Journal, call: &Call) -> Option<Change>
        requires { Mirrors journal.now.opening journal.now.past self.now }
        ensures { IsChangeOf journal.now.opening journal.now.past call.now result }
    {
        match call {
            Call::Tick => self.change_by_tick(journal),
            Call::Hear(_source, _message) => None,
            Call::Join(id, peer) => change_by_join(journal, *id, *peer),
            Call::Remove(id) => change_by_removal(journal, *id),
        }
    }

    /// A start judges an aim that no ack came of.
    fn change_by_tick(&self, journal: &Journal) -> Option<Change>
        requires { Mirrors journal.now.opening journal.now.past self.now }
        ensures { IsChangeOf journal.now.opening journal.now.past Tick result }
    {
        let number = journal.last_number();
        if self.phase != 0 {
            return None;
        }
        if number == u64::MAX {
            return None;
        }
        failed(unheard(self.heard, self.aim), number)
    }
}

/// The judged member, if there is one, failed in that period.
fn failed(judged: Option<Id>, number: u64) -> Option<Change>
    ensures { result ≡ option_map (λ m. changes.Failed m number) judged }
{
    match judged {
        Some(member) => Some(Change::Failed(member, number)),
        None => None,
    }
}

fn change_by_join(journal: &Journal, id: Id, peer: Peer) -> Option<Change>
    ensures { IsChangeOf journal.now.opening journal.now.past (Join id peer) result }
{
    match refusal_to_join(journal, id) {
        Some(_refusal) => None,
        None => Some(Change::Up(id, peer)),
    }
}

fn change_by_removal(journal: &Journal, id: Id) -> Option<Change>
    ensures { IsChangeOf journal.now.opening journal.now.past (Remove id) result }
{
    match refusal_to_remove(journal, id) {
        Some(_refusal) => None,
        None => Some(Change::Gone(id)),
    }
}
