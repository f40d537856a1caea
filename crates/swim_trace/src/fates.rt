//! What became of the datagrams of a probe.

ghost use Rattle.std.specs.Prelude.{◌≡◌, ◌++◌, IfOk, OnOk, filter, length, map, true, false};
ghost use Rattle.swim_trace.specs.Fates.{fate_by, is_heard_on, is_passed_on, is_passing, is_sent, is_told, way, ways};
ghost use Rattle.swim_trace.specs.Legs.{relay_legs};

use crate::acts::{Act, Answer, Deed, ProbeName};
use crate::legs::Leg;
use std::alloc::{AllocError, Global};
use swim_history::Relay;
use swim_wire::{Id, Kind};

/// What became of a datagram.
#[derive(Clone, Copy, Debug, PartialEq, Eq)]
pub enum Fate {
    /// It came, and was answered or counted.
    Passed,
    /// It came, and was ignored.
    Dropped,
    /// It was sent, and no entry of its addressee's tells that it came.
    Lost,
    /// It wasn't sent, by its sender's entries.
    Unsent,
    /// It came, and no entry of its sender's tells that it was sent.
    Contradicted,
    /// No file is there that would tell it.
    Untold,
}

/// A way, and what became of the datagram on it.
#[derive(Clone, Copy, Debug, PartialEq, Eq)]
pub struct Way {
    pub leg: Leg,
    pub fate: Fate,
}

/// What is known of a probe: which one it is, whom the initiator asked to ping its target, the entries that have to do
/// with probes of its number, and whose files these are of.
#[derive(Clone, Copy)]
pub struct Case<'a> {
    pub probe: ProbeName,
    pub relays: &'a [Relay],
    pub acts: &'a [Act],
    pub told: &'a [Id],
}

/// What became of each datagram of a probe: the ping and the ack, and for each relay the request, its ping, the ack to it
/// and that which it sends on. `Err` only where memory was refused.
#[tactic(auto, using(crate::proofs::Relayed::relay_ways_more))]
pub fn ways_of(alloc: Global, case: &Case<'_>) -> Result<Vec<Way>, AllocError>
    ensures { IfOk result (λ found. found.items
        ≡ ways case.now.probe case.now.relays.now case.now.acts.now case.now.told.now) }
{
    let ProbeName {
        initiator,
        target,
        ..
    } = case.probe;
    let mut found = Vec::new(alloc);
    found.push(case.way(Leg::new(Kind::Ping, initiator, target)))?;
    found.push(case.way(Leg::new(Kind::Ack, target, initiator)))?;
    for relay in case.relays {
        case.add_relay(&mut found, relay.id)?;
    }
    Ok(found)
}

impl<'a> Case<'a> {
    /// Adds what became of the datagrams of a relay.
    fn add_relay(&self, found: &mut Vec<Way>, relay: Id) -> Result<(), AllocError>
        ensures { OnOk result (found.new.items ≡ found.old.items
            ++ map (way self.now.probe self.now.acts.now self.now.told.now) (relay_legs self.now.probe relay)) }
    {
        let ProbeName {
            initiator,
            target,
            ..
        } = self.probe;
        found.push(self.way(Leg::new(Kind::PingReq, initiator, relay)))?;
        found.push(self.way(Leg::new(Kind::Ping, relay, target)))?;
        found.push(self.way(Leg::new(Kind::Ack, target, relay)))?;
        found.push(self.way(Leg::new(Kind::Ack, relay, initiator)))?;
        Ok(())
    }

    /// What became of the datagram on that way.
    fn way(&self, leg: Leg) -> Way
        ensures { result ≡ way self.now.probe self.now.acts.now self.now.told.now leg }
    {
        let is_heard = count_heard(self.acts, &self.probe, &leg) > 0;
        let is_passed = count_passed(self.acts, &self.probe, &leg) > 0;
        let fate = if is_heard {
            self.fate_of_heard(&leg, is_passed)
        } else {
            self.fate_of_unheard(&leg, is_passed)
        };
        Way { leg, fate }
    }
}

impl<'a> Case<'a> {
    /// What became of a datagram that came on that way.
    fn fate_of_heard(&self, leg: &Leg, is_passed: bool) -> Fate
        ensures { result ≡ fate_by true is_passed (is_sent self.now.probe self.now.acts.now leg.now)
            (is_told self.now.told.now leg.now.from) (is_told self.now.told.now leg.now.to) }
    {
        if !self.is_sent(leg) && self.told.contains(&leg.from) {
            Fate::Contradicted
        } else if is_passed {
            Fate::Passed
        } else {
            Fate::Dropped
        }
    }

    /// What became of a datagram that came nowhere on that way.
    fn fate_of_unheard(&self, leg: &Leg, is_passed: bool) -> Fate
        ensures { result ≡ fate_by false is_passed (is_sent self.now.probe self.now.acts.now leg.now)
            (is_told self.now.told.now leg.now.from) (is_told self.now.told.now leg.now.to) }
    {
        if self.is_sent(leg) {
            if self.told.contains(&leg.to) {
                Fate::Lost
            } else {
                Fate::Untold
            }
        } else if self.told.contains(&leg.from) {
            Fate::Unsent
        } else {
            Fate::Untold
        }
    }

    /// Whether a datagram was sent on that way, by the entries of its sender.
    pub fn is_sent(&self, leg: &Leg) -> bool
        ensures { result ≡ is_sent self.now.probe self.now.acts.now leg.now }
    {
        match leg.cause(&self.probe) {
            Some(cause) => count_passed(self.acts, &self.probe, &cause) > 0,
            None => true,
        }
    }
}

/// How many entries heard the probe's datagram on that way.
fn count_heard(acts: &[Act], probe: &ProbeName, leg: &Leg) -> usize
    ensures { result ≡ length (filter (is_heard_on probe.now leg.now) acts.now) }
{
    let mut count = 0;
    for act in acts {
        if is_heard_on(probe, leg, act) {
            count += 1;
        }
    }
    count
}

/// How many of them answered it, or counted it.
fn count_passed(acts: &[Act], probe: &ProbeName, leg: &Leg) -> usize
    ensures { result ≡ length (filter (is_passed_on probe.now leg.now) acts.now) }
{
    let mut count = 0;
    for act in acts {
        if is_passed_on(probe, leg, act) {
            count += 1;
        }
    }
    count
}

/// Whether the entry heard the probe's datagram on that way.
pub fn is_heard_on(probe: &ProbeName, leg: &Leg, act: &Act) -> bool
    ensures { result ≡ is_heard_on probe.now leg.now act.now }
{
    match &act.deed {
        Deed::Heard(hearing) => {
            act.probe == *probe
                && act.member == leg.to
                && hearing.kind == leg.kind
                && hearing.sender == leg.from
        }
        Deed::Probed => false,
    }
}

/// Whether it did, and answered or counted it.
pub fn is_passed_on(probe: &ProbeName, leg: &Leg, act: &Act) -> bool
    ensures { result ≡ is_passed_on probe.now leg.now act.now }
{
    is_heard_on(probe, leg, act) && is_passing(&act.deed)
}

/// Whether a message came that was answered or counted.
pub(crate) fn is_passing(deed: &Deed) -> bool
    ensures { result ≡ is_passing deed.now }
{
    match deed {
        Deed::Heard(hearing) => match hearing.answer {
            Answer::Sent | Answer::Counted => true,
            Answer::Dropped(_) => false,
        },
        Deed::Probed => false,
    }
}
