//! Members with their addresses.

ghost use Rattle.std.specs.Prelude.{◌≡◌, ◌≢◌, ◌+◌, ◌≤◌, true, false, Some, length, map, take, min, MatchOption};
ghost use Rattle.std.specs.Prelude.{IsPermutation};
ghost use Rattle.std.specs.List.{AllByRecursion};
ghost use Rattle.swim_wire.specs.Round.{Lists};
ghost use Rattle.swim_history.specs.Rows.{up, row_of, where_listed, is_listed};
ghost use Rattle.swim_history.specs.Round.{lists};
ghost use Rattle.swim_history.specs.Run.{IsProbe, AreRelays, candidates};
ghost use Rattle.swim_history.specs.Drawn.{DrawsRelays};
ghost use Rattle.swim_detector.specs.Mirrors.{IsListedNext, AreListed, AreAt};

use arrayvec::ArrayVec;
use swim_history::{Journal, MOST_RELAYS, Order, Probe, Relay, RowState};
use swim_targets::{Chooser, Targets};
use swim_wire::{Id, Peer};

/// The address of a member, if it is listed.
pub(super) fn listed_at(journal: &Journal, id: Id) -> Option<Peer>
    ensures row { MatchOption result
        (is_listed journal.now.opening journal.now.past id ≡ false)
        (λ peer. row_of journal.now.opening journal.now.past id ≡ Some (up id peer)) }
    ensures value { result ≡ where_listed (row_of journal.now.opening journal.now.past id) }
{
    match journal.row(id) {
        Some(row) => match row.state {
            RowState::Up => Some(row.peer),
            RowState::Failed(_) => None,
        },
        None => None,
    }
}

/// The address of a listed member.
pub(super) fn address_of(journal: &Journal, id: Id) -> Peer
    requires { is_listed journal.now.opening journal.now.past id ≡ true }
    ensures { row_of journal.now.opening journal.now.past id ≡ Some (up id result) }
{
    match listed_at(journal, id) {
        Some(peer) => peer,
        None => unreachable!(),
    }
}

/// The probe of a period with that number, if there is somebody to probe.
pub(super) fn probe_of(journal: &Journal, next: &Option<Id>, number: u64) -> Option<Probe>
    requires { IsListedNext journal.now.opening journal.now.past next.now }
    ensures { IsProbe journal.now.opening journal.now.past number next.now result }
{
    match next {
        Some(target) => Some(Probe {
            target: *target,
            peer: address_of(journal, *target),
            number,
        }),
        None => None,
    }
}

/// The members that are asked to ping the target: the first k of the others, in an order of the chooser's.
pub(super) fn relays_for<C: Chooser>(
    journal: &Journal,
    targets: &Targets,
    target: Id,
    chooser: &mut C,
) -> ArrayVec<Relay, MOST_RELAYS>
    requires { targets.now ≡ lists journal.now.opening journal.now.past }
    ensures relays { AreRelays journal.now.opening journal.now.past target result.items }
    ensures drawn { DrawsRelays C.orders journal.now.opening.k (candidates journal.now.opening journal.now.past target)
        (map (λ relay. relay.id) result.items) chooser.old chooser.new }
{
    let k = journal.opening().k();
    let mut others = targets.candidates(target);
    if k == 0 || others.is_empty() {
        return ArrayVec::new();
    }
    order(&mut others, chooser);
    others.truncate(k as usize);
    relays_at(journal, others.as_slice())
}

/// Puts members into an order of the chooser's.
fn order<C: Chooser>(members: &mut Order, chooser: &mut C)
    ensures permutation { IsPermutation members.old.items members.new.items }
    ensures drawn { C.orders chooser.old members.old.items members.new.items chooser.new }
{
    chooser.order(members.as_mut_slice());
}

/// These members, with their addresses.
fn relays_at(journal: &Journal, ids: &[Id]) -> ArrayVec<Relay, MOST_RELAYS>
    requires count { length ids.now ≤ MOST_RELAYS }
    requires listed { AreListed journal.now.opening journal.now.past ids.now }
    ensures ids { map (λ relay. relay.id) result.items ≡ ids.now }
    ensures addresses { AreAt journal.now.opening journal.now.past result.items }
{
    let mut relays = ArrayVec::new();
    for id in ids {
        relays.push(Relay {
            id: *id,
            peer: address_of(journal, *id),
        });
    }
    relays
}
