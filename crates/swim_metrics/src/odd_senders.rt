//! Messages whose senders aren't as the member table has them.

ghost use Rattle.std.specs.Prelude.{◌≡◌, ◌==◌, [], Some, None, if◌then◌else◌};
ghost use Rattle.swim_history.specs.Changes.{IsAscending};
ghost use Rattle.swim_metrics.specs.OddSenders.{count_of, count_then, elsewhere, is_elsewhere, is_same, is_unlisted};
ghost use Rattle.swim_metrics.specs.OddSenders.{message_if, own_id, place_of, senders_of, senders_then, unlisted};

use crate::counting::more;
use swim_history::{Call, Row, find_row};
use swim_wire::{Id, Kind, Message, Peer};

/// A message whose sender isn't as the member table has it.
#[derive(Clone, Copy, Debug, PartialEq, Eq)]
pub struct OddMessage {
    pub sender: Id,
    /// Where the message came from.
    pub source: Peer,
    /// Where the table has its sender, if it is known.
    pub listed: Option<Peer>,
}

/// How many such messages came, and the newest.
#[derive(Clone, Copy, Debug, PartialEq, Eq)]
pub struct OddCount {
    pub count: u64,
    pub newest: Option<OddMessage>,
}

/// Messages whose senders aren't as the member table has them, over all lives.
#[derive(Clone, Copy, Debug, PartialEq, Eq)]
pub struct OddSenders {
    /// Pings of senders that aren't known.
    pub unlisted: OddCount,
    /// Messages of others with this member's id.
    pub own_id: OddCount,
    /// Messages of members that the table has at another address.
    pub elsewhere: OddCount,
}

impl OddSenders {
    /// None came yet.
    pub(crate) fn new() -> OddSenders
        ensures { result ≡ senders_of [] }
    {
        OddSenders {
            unlisted: OddCount::new(),
            own_id: OddCount::new(),
            elsewhere: OddCount::new(),
        }
    }

    /// Counts a call, while the table of this member has these rows.
    pub(crate) fn add(&mut self, me: Id, rows: &[Row], call: &Call)
        requires { IsAscending rows.now }
        ensures { self.new ≡ senders_then me rows.now call.now self.old }
    {
        if let Call::Hear(source, message) = call {
            self.add_message(me, rows, source, message);
        }
    }

    /// Counts a message.
    fn add_message(&mut self, me: Id, rows: &[Row], source: &Peer, message: &Message)
        requires { IsAscending rows.now }
        ensures unlisted { let listed = place_of message.now.sender rows.now in self.new.unlisted
            ≡ count_then (message_if (is_unlisted me message.now listed) message.now source.now listed)
            self.old.unlisted }
        ensures own_id { let listed = place_of message.now.sender rows.now in self.new.own_id
            ≡ count_then (message_if (message.now.sender == me) message.now source.now listed) self.old.own_id }
        ensures elsewhere { let listed = place_of message.now.sender rows.now in self.new.elsewhere
            ≡ count_then (message_if (is_elsewhere source.now listed) message.now source.now listed)
            self.old.elsewhere }
    {
        let odd = OddMessage {
            sender: message.sender,
            source: *source,
            listed: place_of(message.sender, rows),
        };
        self.unlisted
            .add(is_unlisted(me, message, &odd.listed), &odd);
        self.own_id.add(message.sender == me, &odd);
        self.elsewhere.add(is_elsewhere(source, &odd.listed), &odd);
    }
}

impl OddCount {
    /// None came yet.
    fn new() -> OddCount
        ensures { result ≡ count_of [] }
    {
        OddCount {
            count: 0,
            newest: None,
        }
    }

    /// Counts that message, if it is odd.
    fn add(&mut self, is_odd: bool, message: &OddMessage)
        ensures { self.new ≡ count_then (if is_odd then Some message.now else None) self.old }
    {
        if is_odd {
            self.count = more(self.count, 1);
            self.newest = Some(*message);
        }
    }
}

/// Where the table has a member, if it is known.
fn place_of(member: Id, rows: &[Row]) -> Option<Peer>
    requires { IsAscending rows.now }
    ensures { result ≡ place_of member rows.now }
{
    find_row(rows, member).map(|row| row.peer)
}

/// Whether a message is a ping of a sender that is neither known nor this member.
fn is_unlisted(me: Id, message: &Message, listed: &Option<Peer>) -> bool
    ensures { result ≡ is_unlisted me message.now listed.now }
{
    message.kind == Kind::Ping && message.sender != me && !listed.is_some()
}

/// Whether a message came from another address than that at which the table has its sender.
fn is_elsewhere(source: &Peer, listed: &Option<Peer>) -> bool
    ensures { result ≡ is_elsewhere source.now listed.now }
{
    match listed {
        Some(listed) => !is_same(listed, source),
        None => false,
    }
}

fn is_same(first: &Peer, second: &Peer) -> bool
    ensures { result ≡ is_same first.now second.now }
{
    first.ip.as_slice() == second.ip.as_slice() && first.port == second.port
}
