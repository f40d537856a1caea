//! What is counted of one member.

ghost use Rattle.std.specs.Prelude.{◌≡◌, ◌==◌, if◌then◌else◌};
ghost use Rattle.std.specs.List.{list_any};
ghost use Rattle.swim_history.specs.Events.{judged_in};
ghost use Rattle.swim_history.specs.Gap.{is_member};
ghost use Rattle.swim_metrics.specs.Members.{acked_number, heard_number, is_acked_by_relay, is_acked_directly};
ghost use Rattle.swim_metrics.specs.Members.{is_asked, no_tally, relayed_by, relayed_then, tally_then};

use crate::counting::{more, more_if};
use swim_history::{Call, Relay, Reply};
use swim_wire::{Id, Message};

/// What was counted of a member since it came into the table. Each count stops at 2^64-1.
#[derive(Clone, Copy, Debug, Default, PartialEq, Eq)]
pub struct MemberTally {
    /// The number of the last period in which an ack of the member came in time.
    pub heard: Option<u64>,
    /// Acks of own probes of the member that came in time, from the member itself.
    pub directly: u64,
    /// The same from relays.
    pub by_relay: u64,
    /// How often the member was judged failed.
    pub verdicts: u64,
    /// How often the member was asked to ping another one.
    pub asked: u64,
    /// In how many of the last periods in a row in which the member was probed acks of it came from relays alone.
    pub relayed: u64,
}

impl MemberTally {
    /// Nothing was counted yet.
    pub(crate) fn new() -> MemberTally
        ensures { result ≡ no_tally }
    {
        MemberTally {
            heard: None,
            directly: 0,
            by_relay: 0,
            verdicts: 0,
            asked: 0,
            relayed: 0,
        }
    }

    /// The counts of that member after an entry.
    pub(crate) fn after(&self, member: Id, call: &Call, reply: &Reply) -> MemberTally
        ensures { result ≡ tally_then member call.now reply.now self.now }
    {
        MemberTally {
            heard: heard_number(member, call, reply).or(self.heard),
            directly: more_if(self.directly, is_acked_directly(member, call, reply)),
            by_relay: more_if(self.by_relay, is_acked_by_relay(member, call, reply)),
            verdicts: more_if(self.verdicts, is_judged(member, reply)),
            asked: more_if(self.asked, is_asked(member, reply)),
            relayed: relayed_after(member, call, reply, self.heard, self.relayed),
        }
    }
}

/// The number of the period for which an ack of a member came in time, if one did.
fn heard_number(member: Id, call: &Call, reply: &Reply) -> Option<u64>
    ensures { result ≡ heard_number member call.now reply.now }
{
    match (call, reply) {
        (Call::Hear(_, ack), Reply::Heard) => acked_number(member, ack),
        _ => None,
    }
}

/// The number of an ack, if it is of that member.
fn acked_number(member: Id, ack: &Message) -> Option<u64>
    ensures { result ≡ acked_number member ack.now }
{
    if ack.target == member {
        Some(ack.number.get())
    } else {
        None
    }
}

/// Whether an ack of a member came in time, from the member itself.
fn is_acked_directly(member: Id, call: &Call, reply: &Reply) -> bool
    ensures { result ≡ is_acked_directly member call.now reply.now }
{
    match (call, reply) {
        (Call::Hear(_, ack), Reply::Heard) => ack.target == member && ack.sender == member,
        _ => false,
    }
}

/// Whether one came from a relay.
fn is_acked_by_relay(member: Id, call: &Call, reply: &Reply) -> bool
    ensures { result ≡ is_acked_by_relay member call.now reply.now }
{
    match (call, reply) {
        (Call::Hear(_, ack), Reply::Heard) => ack.target == member && ack.sender != member,
        _ => false,
    }
}

/// Whether a member is judged failed.
fn is_judged(member: Id, reply: &Reply) -> bool
    ensures { result ≡ is_member member (judged_in reply.now) }
{
    match reply {
        Reply::Started {
            judged: Some(judged),
            ..
        } => *judged == member,
        _ => false,
    }
}

/// Whether a member is asked to ping another one.
fn is_asked(member: Id, reply: &Reply) -> bool
    ensures { result ≡ is_asked member reply.now }
{
    match reply {
        Reply::Asked { relays, .. } => is_relay(member, relays.as_slice()),
        _ => false,
    }
}

/// Whether a member is one of the relays.
fn is_relay(member: Id, relays: &[Relay]) -> bool
    ensures { result ≡ list_any (λ relay. relay.id == member) relays.now }
{
    relays.iter().any(|relay| relay.id == member)
}

/// In how many periods in a row acks came from relays alone, after an entry.
fn relayed_after(member: Id, call: &Call, reply: &Reply, heard: Option<u64>, relayed: u64) -> u64
    ensures { result ≡ relayed_then member call.now reply.now heard relayed }
{
    match (call, reply) {
        (Call::Hear(_, ack), Reply::Heard) => relayed_by(member, ack, heard, relayed),
        _ => none_if(is_judged(member, reply), relayed),
    }
}

/// The same after an ack in time.
fn relayed_by(member: Id, ack: &Message, heard: Option<u64>, relayed: u64) -> u64
    ensures { result ≡ relayed_by member ack.now heard relayed }
{
    if ack.target != member {
        return relayed;
    }
    if ack.sender == member {
        return 0;
    }
    if heard == Some(ack.number.get()) {
        return relayed;
    }
    more(relayed, 1)
}

/// None, if it is so.
fn none_if(is_so: bool, count: u64) -> u64
    ensures { result ≡ if is_so then 0 else count }
{
    if is_so { 0 } else { count }
}
