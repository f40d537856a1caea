//! Replies, as the journal stores them.

ghost use Rattle.std.specs.Prelude.{◌≡◌, ◌+◌, ◌≤◌, ◌++◌, List, length, vec_len, vec_capacity};
ghost use Rattle.swim_history.specs.declared.replies.Relay.{Relay};
ghost use Rattle.swim_history.specs.Storing.StoredReplies.{relays_in, reply_at, reply_among, start_in, IsAskedWithin};

use crate::copies::copied;
use crate::replies::{DropReason, MOST_RELAYS, Probe, Refusal, Relay, Reply};
use swim_wire::{Id, Message, Peer};

/// A reply, but for the relays that it asks: of those it tells how many there are, and where they stand among
/// those of all entries.
#[derive(Clone, Copy)]
pub(crate) enum StoredReply {
    Quiet,
    Started {
        judged: Option<Id>,
        probe: Option<Probe>,
    },
    Asked {
        target: Id,
        peer: Peer,
        number: u64,
        count: u8,
        start: usize,
    },
    Heard,
    Send {
        peer: Peer,
        message: Message,
    },
    Dropped(DropReason),
    Joined {
        place: u32,
    },
    Removed,
    Refused(Refusal),
}

/// What a start tells beside its number: whom it judged, and whom it probes.
#[derive(Clone, Copy)]
pub(crate) struct Start {
    pub(crate) judged: Option<Id>,
    pub(crate) probe: Option<Probe>,
}

/// What a stored reply begins, if a period. No relays are read.
pub(crate) fn start_in(stored: &StoredReply) -> Option<Start>
    ensures { (relays : List Relay) → result ≡ start_in (reply_among relays stored.now) }
{
    match stored {
        StoredReply::Started { judged, probe } => Some(Start {
            judged: *judged,
            probe: *probe,
        }),
        _ => None,
    }
}

/// Puts the relays of a reply behind the others, and answers how the reply is stored. It takes no memory.
pub(crate) fn store_reply(relays: &mut Vec<Relay>, reply: &Reply) -> StoredReply
    requires { vec_len relays.old + MOST_RELAYS ≤ vec_capacity relays.old }
    ensures relays { relays.new.items ≡ relays.old.items ++ relays_in reply.now }
    ensures stored { result ≡ reply_at (length relays.old.items) reply.now }
    ensures within { IsAskedWithin (length relays.new.items) result }
    ensures capacity { vec_capacity relays.old ≤ vec_capacity relays.new }
    ensures len { vec_len relays.new ≤ vec_len relays.old + MOST_RELAYS }
{
    match reply {
        Reply::Quiet => StoredReply::Quiet,
        Reply::Started { judged, probe } => StoredReply::Started {
            judged: *judged,
            probe: *probe,
        },
        Reply::Asked {
            target,
            peer,
            number,
            relays: asked,
        } => {
            let start = relays.len();
            let _ = relays.extend_from_slice(asked.as_slice());
            StoredReply::Asked {
                target: *target,
                peer: *peer,
                number: *number,
                count: asked.len() as u8,
                start,
            }
        }
        Reply::Heard => StoredReply::Heard,
        Reply::Send { peer, message } => StoredReply::Send {
            peer: *peer,
            message: *message,
        },
        Reply::Dropped(reason) => StoredReply::Dropped(*reason),
        Reply::Joined { place } => StoredReply::Joined { place: *place },
        Reply::Removed => StoredReply::Removed,
        Reply::Refused(reason) => StoredReply::Refused(*reason),
    }
}

/// A reply, from how it is stored.
pub(crate) fn reply_among(relays: &[Relay], stored: &StoredReply) -> Reply
    requires { IsAskedWithin (length relays.now) stored.now }
    ensures { result ≡ reply_among relays.now stored.now }
{
    match stored {
        StoredReply::Quiet => Reply::Quiet,
        StoredReply::Started { judged, probe } => Reply::Started {
            judged: *judged,
            probe: *probe,
        },
        StoredReply::Asked {
            target,
            peer,
            number,
            count,
            start,
        } => {
            let end = *start + *count as usize;
            Reply::Asked {
                target: *target,
                peer: *peer,
                number: *number,
                relays: copied(&relays[*start..end]),
            }
        }
        StoredReply::Heard => Reply::Heard,
        StoredReply::Send { peer, message } => Reply::Send {
            peer: *peer,
            message: *message,
        },
        StoredReply::Dropped(reason) => Reply::Dropped(*reason),
        StoredReply::Joined { place } => Reply::Joined { place: *place },
        StoredReply::Removed => Reply::Removed,
        StoredReply::Refused(reason) => Reply::Refused(*reason),
    }
}
