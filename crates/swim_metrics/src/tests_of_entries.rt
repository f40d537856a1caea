//! Tests on one call with its reply.

ghost use Rattle.std.specs.Prelude.{◌≡◌, ◌==◌, count_by, if◌then◌else◌, length};
ghost use Rattle.swim_history.specs.Events.{is_joining, is_starting, is_ticking, judged_in};
ghost use Rattle.swim_history.specs.Sends.{sends_of};
ghost use Rattle.swim_history.specs.Setting.{Setting};
ghost use Rattle.swim_history.specs.Waiting.{asked_in};
ghost use Rattle.swim_metrics.specs.Counting.{is_heard_by_relay, is_heard_directly, is_leaving, is_pinged, is_there};
ghost use Rattle.swim_metrics.specs.Counting.{is_late, sends_ask, sends_ping};
ghost use Rattle.swim_metrics.specs.Members.{is_of_members};
ghost use Rattle.swim_metrics.specs.Waiting.{is_hearing};

use swim_history::{Call, DropReason, Relay, Reply};
use swim_wire::{Kind, Message};

/// Whether a tick was accepted.
pub(crate) fn is_tick(call: &Call, reply: &Reply) -> bool
    ensures { result ≡ is_ticking call.now reply.now }
{
    matches!(call, Call::Tick) && !matches!(reply, Reply::Refused(_))
}

/// Whether a period begins.
pub(crate) fn is_start(reply: &Reply) -> bool
    ensures { result ≡ is_starting reply.now }
{
    matches!(reply, Reply::Started { .. })
}

/// Whether a period begins by whose beginning a member is judged failed.
pub(crate) fn is_verdict(reply: &Reply) -> bool
    ensures { result ≡ is_there (judged_in reply.now) }
{
    matches!(
        reply,
        Reply::Started {
            judged: Some(_),
            ..
        }
    )
}

/// Whether a member joined.
pub(crate) fn is_join(call: &Call, reply: &Reply) -> bool
    ensures { result ≡ is_joining call.now reply.now }
{
    matches!(call, Call::Join(..)) && matches!(reply, Reply::Joined { .. })
}

/// Whether a member was removed.
pub(crate) fn is_removal(call: &Call, reply: &Reply) -> bool
    ensures { result ≡ is_leaving call.now reply.now }
{
    matches!(call, Call::Remove(_)) && matches!(reply, Reply::Removed)
}

/// Whether a ping came.
pub(crate) fn is_pinged(call: &Call) -> bool
    ensures { result ≡ is_pinged call.now }
{
    match call {
        Call::Hear(_, message) => message.kind == Kind::Ping,
        _ => false,
    }
}

/// Whether a request of another member was taken on.
pub(crate) fn is_served(call: &Call, reply: &Reply) -> bool
    ensures { result ≡ is_there (asked_in call.now reply.now) }
{
    match (call, reply) {
        (Call::Hear(_, message), Reply::Send { .. }) => message.kind == Kind::PingReq,
        _ => false,
    }
}

/// Whether an ack of the aim came for the period that runs.
pub(crate) fn is_heard(call: &Call, reply: &Reply) -> bool
    ensures { result ≡ is_hearing call.now reply.now }
{
    matches!(call, Call::Hear(..)) && matches!(reply, Reply::Heard)
}

/// Whether one came from the aim itself.
pub(crate) fn is_heard_directly(call: &Call, reply: &Reply) -> bool
    ensures { result ≡ is_heard_directly call.now reply.now }
{
    match (call, reply) {
        (Call::Hear(_, message), Reply::Heard) => is_of_target(message),
        _ => false,
    }
}

/// Whether one came from a relay.
pub(crate) fn is_heard_by_relay(call: &Call, reply: &Reply) -> bool
    ensures { result ≡ is_heard_by_relay call.now reply.now }
{
    match (call, reply) {
        (Call::Hear(_, message), Reply::Heard) => !is_of_target(message),
        _ => false,
    }
}

fn is_of_target(message: &Message) -> bool
    ensures { result ≡ message.now.sender == message.now.target }
{
    message.sender == message.target
}

/// Whether an ack of an own probe came after the end of its period, where that of this number runs.
pub(crate) fn is_late(call: &Call, reply: &Reply, number: u64) -> bool
    ensures { result ≡ is_late call.now reply.now number }
{
    match (call, reply) {
        (Call::Hear(_, ack), Reply::Dropped(DropReason::Stray)) => ack.number.get() < number,
        _ => false,
    }
}

/// Whether an entry with that reply counts for members: one is heard, judged or asked.
pub(crate) fn is_of_members(reply: &Reply) -> bool
    ensures { result ≡ is_of_members reply.now }
{
    match reply {
        Reply::Heard | Reply::Asked { .. } => true,
        Reply::Started { judged, .. } => judged.is_some(),
        _ => false,
    }
}

/// How many pings a reply sends.
pub(crate) fn pings_in(reply: &Reply) -> u64
    ensures { (o : Setting) → result ≡ count_by sends_ping (sends_of reply.now o) }
{
    match reply {
        Reply::Started {
            probe: Some(probe),
            ..
        } => u64::from(probe.number > 0),
        Reply::Send { message, .. } => u64::from(message.kind == Kind::Ping),
        Reply::Asked { .. } => 0,
        _ => 0,
    }
}

/// How many relays a reply asks.
pub(crate) fn asks_in(reply: &Reply) -> u64
    ensures { (o : Setting) → result ≡ count_by sends_ask (sends_of reply.now o) }
{
    match reply {
        Reply::Asked { number, relays, .. } => asked_relays(*number, relays.as_slice()),
        Reply::Send { message, .. } => u64::from(message.kind == Kind::PingReq),
        _ => 0,
    }
}

/// How many relays are asked for a probe of that number.
fn asked_relays(number: u64, relays: &[Relay]) -> u64
    ensures { result ≡ if number == 0 then 0 else length relays.now }
{
    if number == 0 { 0 } else { relays.len() as u64 }
}
