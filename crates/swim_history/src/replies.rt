//! What a detector answers.

ghost use Rattle.std.specs.Prelude.{◌≡◌};
ghost use Rattle.swim_history.specs.Reasons.{drop_number, refusal_number};

use crate::copies::copied;
use arrayvec::ArrayVec;
use swim_wire::{Id, Message, Peer};
use thiserror::Error;

/// The most members that are asked for an indirect probe.
pub const MOST_RELAYS: usize = 8;

/// A ping that a new period begins with.
#[derive(Clone, Copy, Debug, PartialEq, Eq)]
pub struct Probe {
    pub target: Id,
    pub peer: Peer,
    /// The number of the period.
    pub number: u64,
}

/// A member that is asked to ping the target for us.
#[derive(Clone, Copy, Debug, Default, PartialEq, Eq)]
pub struct Relay {
    pub id: Id,
    pub peer: Peer,
}

/// Why a message was dropped.
#[derive(Clone, Copy, Debug, PartialEq, Eq, Error)]
pub enum DropReason {
    /// A ping for another member.
    #[error("not for me")]
    NotForMe,
    /// A request that its sender didn't begin, or that this member is said to have begun.
    #[error("borrowed")]
    Borrowed,
    /// A request to ping this member.
    #[error("about me")]
    AboutMe,
    /// A request to ping a member that isn't listed.
    #[error("unlisted")]
    Unlisted,
    /// A new request while 64 wait.
    #[error("table full")]
    TableFull,
    /// An ack of this member's own probes that isn't one of the aim for this period.
    #[error("stray")]
    Stray,
    /// An ack for another member that no request waits for.
    #[error("no request")]
    NoRequest,
}

impl DropReason {
    /// The number by which the reason is told: 1 to 7, in the order above.
    pub fn number(self) -> u8
        ensures { result ≡ drop_number self }
    {
        match self {
            DropReason::NotForMe => 1,
            DropReason::Borrowed => 2,
            DropReason::AboutMe => 3,
            DropReason::Unlisted => 4,
            DropReason::TableFull => 5,
            DropReason::Stray => 6,
            DropReason::NoRequest => 7,
        }
    }
}

/// Why a call was refused.
#[derive(Clone, Copy, Debug, PartialEq, Eq, Error)]
pub enum Refusal {
    /// The member named is this one.
    #[error("myself")]
    Myself,
    /// The member is listed already.
    #[error("listed")]
    Listed,
    /// As many members are known as may be, and this one isn't among them.
    #[error("full")]
    Full,
    /// No such member is known.
    #[error("unknown")]
    Unknown,
    /// The period numbers are used up.
    #[error("the period numbers are used up")]
    Spent,
}

impl Refusal {
    /// The number by which the reason is told: 1 to 5, in the order above.
    pub fn number(self) -> u8
        ensures { result ≡ refusal_number self }
    {
        match self {
            Refusal::Myself => 1,
            Refusal::Listed => 2,
            Refusal::Full => 3,
            Refusal::Unknown => 4,
            Refusal::Spent => 5,
        }
    }
}

/// The detector's answer to a call.
#[derive(Debug, PartialEq, Eq, Drop)]
pub enum Reply {
    /// Nothing is to be done in this tick.
    Quiet,
    /// A period ended and the next began. The aim of the one that ended is judged failed if no ack of it
    /// came; the next member of the round, if any, is probed (sections 3.1 and 4.3 of the SWIM paper).
    Started {
        judged: Option<Id>,
        probe: Option<Probe>,
    },
    /// The timeout passed without an ack of the aim, so these members are asked to ping it at its address
    /// (section 3.1 of the SWIM paper).
    Asked {
        target: Id,
        peer: Peer,
        number: u64,
        relays: ArrayVec<Relay, MOST_RELAYS>,
    },
    /// An ack of the aim for this period.
    Heard,
    /// This message is to be sent to this address.
    Send {
        peer: Peer,
        message: Message,
    },
    /// The message is ignored.
    Dropped(DropReason),
    /// The member is listed, at this place among those probed and those to be probed.
    Joined {
        place: u32,
    },
    /// The member is forgotten.
    Removed,
    /// The call is refused.
    Refused(Refusal),
}

impl Reply {
    /// The same reply again. It takes no memory.
    pub fn copy(&self) -> Reply
        ensures { result ≡ self.now }
    {
        match self {
            Reply::Quiet => Reply::Quiet,
            Reply::Started { judged, probe } => Reply::Started {
                judged: *judged,
                probe: *probe,
            },
            Reply::Asked {
                target,
                peer,
                number,
                relays,
            } => Reply::Asked {
                target: *target,
                peer: *peer,
                number: *number,
                relays: copied(relays.as_slice()),
            },
            Reply::Heard => Reply::Heard,
            Reply::Send { peer, message } => Reply::Send {
                peer: *peer,
                message: *message,
            },
            Reply::Dropped(reason) => Reply::Dropped(*reason),
            Reply::Joined { place } => Reply::Joined { place: *place },
            Reply::Removed => Reply::Removed,
            Reply::Refused(reason) => Reply::Refused(*reason),
        }
    }
}
