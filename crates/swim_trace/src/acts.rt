//! Entries that have to do with a probe.

ghost use Rattle.std.specs.Prelude.{◌≡◌};
ghost use Rattle.swim_trace.specs.Acts.{act_by, answer_in, heard_by, name_of, probed_by};

use swim_history::{Call, Called, DropReason, Probe, Reply};
use swim_wire::{Id, Kind, Message, Peer};

/// What a probe is known by, everywhere in the group: who began it, of whom, and in which of the initiator's periods.
#[derive(Clone, Copy, Debug, PartialEq, Eq)]
pub struct ProbeName {
    pub initiator: Id,
    pub target: Id,
    pub number: u64,
}

/// Where an entry stands.
#[derive(Clone, Copy, Debug, PartialEq, Eq)]
pub struct Spot {
    /// How many files were given before its file.
    pub file: u32,
    /// How many entries stand before it there.
    pub place: u32,
}

/// What a message was answered.
#[derive(Clone, Copy, Debug, PartialEq, Eq)]
pub enum Answer {
    /// By another message.
    Sent,
    /// It is the ack of the aim for the period in which it came.
    Counted,
    /// It was ignored.
    Dropped(DropReason),
}

/// A message that came.
#[derive(Clone, Copy, Debug, PartialEq, Eq)]
pub struct Hearing {
    pub kind: Kind,
    /// Who says that it sent it.
    pub sender: Id,
    /// The address that it came from.
    pub source: Peer,
    pub answer: Answer,
}

/// What an entry has to do with a probe.
#[derive(Clone, Copy, Debug, PartialEq, Eq)]
pub enum Deed {
    /// The probe began: its target was pinged.
    Probed,
    /// A message of the probe came.
    Heard(Hearing),
}

/// An entry that has to do with a probe.
#[derive(Clone, Copy, Debug, PartialEq, Eq)]
pub struct Act {
    pub spot: Spot,
    /// Whose entry it is.
    pub member: Id,
    pub probe: ProbeName,
    pub deed: Deed,
}

/// What an entry of that member has to do with a probe; `None` where it has nothing to do with any.
pub(crate) fn act_by(spot: Spot, me: Id, called: &Called) -> Option<Act>
    ensures { result ≡ act_by spot me called.now.call called.now.reply }
{
    match (&called.call, &called.reply) {
        (Call::Hear(source, message), reply) => {
            let answer = answer_in(reply)?;
            Some(heard_by(spot, me, *source, message, answer))
        }
        (
            _,
            Reply::Started {
                probe: Some(probe),
                ..
            },
        ) => Some(probed_by(spot, me, probe)),
        _ => None,
    }
}

/// What a message was answered by that reply, if it is one to a message.
fn answer_in(reply: &Reply) -> Option<Answer>
    ensures { result ≡ answer_in reply.now }
{
    match reply {
        Reply::Send { .. } => Some(Answer::Sent),
        Reply::Heard => Some(Answer::Counted),
        Reply::Dropped(why) => Some(Answer::Dropped(*why)),
        _ => None,
    }
}

/// The entry by which a message came.
fn heard_by(spot: Spot, me: Id, source: Peer, message: &Message, answer: Answer) -> Act
    ensures { result ≡ heard_by spot me source message.now answer }
{
    Act {
        spot,
        member: me,
        probe: name_of(message),
        deed: Deed::Heard(Hearing {
            kind: message.kind,
            sender: message.sender,
            source,
            answer,
        }),
    }
}

/// The probe that a message belongs to.
fn name_of(message: &Message) -> ProbeName
    ensures { result ≡ name_of message.now }
{
    ProbeName {
        initiator: message.initiator,
        target: message.target,
        number: message.number.get(),
    }
}

/// The entry by which a probe began.
fn probed_by(spot: Spot, me: Id, probe: &Probe) -> Act
    ensures { result ≡ probed_by spot me probe.now }
{
    Act {
        spot,
        member: me,
        probe: ProbeName {
            initiator: me,
            target: probe.target,
            number: probe.number,
        },
        deed: Deed::Probed,
    }
}
