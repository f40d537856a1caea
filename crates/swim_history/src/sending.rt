//! The messages that a reply sends.

ghost use Rattle.std.specs.Prelude.{◌≡◌, ◌+◌, ◌<◌, ◌≤◌, ◌∷◌, ◌++◌, [], length, map};
ghost use Rattle.std.specs.Option.{SomeIff};
ghost use Rattle.swim_history.specs.Sends.{sends_of, own, to_each};

use crate::openings::Opening;
use crate::replies::{MOST_RELAYS, Probe, Relay, Reply};
use arrayvec::ArrayVec;
use swim_wire::{Kind, Message, Peer, PeriodNumber};

/// The messages that a reply sends, with their addresses, in order: the ping of a period that begins, a
/// request to each relay, or the message of a `Send` (section 3.1 of the SWIM paper). No other reply
/// sends any.
pub fn sends(reply: &Reply, opening: &Opening) -> ArrayVec<(Peer, Message), MOST_RELAYS>
    ensures { result.items ≡ sends_of reply.now opening.now }
{
    match reply {
        Reply::Started {
            probe: Some(probe),
            ..
        } => to_each(opening, Kind::Ping, probe, &[probe.peer]),
        Reply::Asked {
            target,
            peer,
            number,
            relays,
        } => {
            let probe = Probe {
                target: *target,
                peer: *peer,
                number: *number,
            };
            let peers = peers_of(relays.as_slice());
            to_each(opening, Kind::PingReq, &probe, peers.as_slice())
        }
        Reply::Send { peer, message } => {
            let mut sent = ArrayVec::new();
            sent.push((*peer, *message));
            sent
        }
        _ => ArrayVec::new(),
    }
}

/// The message of this member's own probe of that kind, which tells where the target is if a message of its version and
/// kind does. `None` for a probe of number 0, which no period has.
pub fn own_message(opening: &Opening, kind: Kind, probe: &Probe) -> Option<Message>
    ensures { SomeIff result (0 < probe.now.number) (own opening.now kind probe.now) }
{
    let version = opening.version();
    let number = PeriodNumber::new(probe.number)?;
    let me = opening.me();
    Some(Message {
        version,
        kind,
        sender: me,
        initiator: me,
        target: probe.target,
        number,
        at: version.carries(kind).then_some(probe.peer),
    })
}

/// The addresses of relays, in order.
fn peers_of(relays: &[Relay]) -> ArrayVec<Peer, MOST_RELAYS>
    requires { length relays.now ≤ MOST_RELAYS }
    ensures { result.items ≡ map (λ relay. relay.peer) relays.now }
{
    let mut peers = ArrayVec::new();
    for relay in relays {
        peers.push(relay.peer);
    }
    peers
}

/// The same message of this member's own probe to each address.
fn to_each(
    opening: &Opening,
    kind: Kind,
    probe: &Probe,
    peers: &[Peer],
) -> ArrayVec<(Peer, Message), MOST_RELAYS>
    requires { length peers.now ≤ MOST_RELAYS }
    ensures { result.items ≡ to_each opening.now kind probe.now peers.now }
{
    match own_message(opening, kind, probe) {
        Some(message) => addressed(&message, peers),
        None => ArrayVec::new(),
    }
}

/// A message with each address.
fn addressed(message: &Message, peers: &[Peer]) -> ArrayVec<(Peer, Message), MOST_RELAYS>
    requires { length peers.now ≤ MOST_RELAYS }
    ensures { result.items ≡ map (λ peer. (peer, message.now)) peers.now }
{
    let mut sent = ArrayVec::new();
    for peer in peers {
        sent.push((*peer, *message));
    }
    sent
}
