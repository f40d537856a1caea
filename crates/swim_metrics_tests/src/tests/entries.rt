//! Entries of small lives, and their parts.

use arrayvec::ArrayVec;
use std::test::Fail;
use swim_history::{Call, DropReason, Opening, Probe, Relay, Reply};
use swim_metrics::{FileFigures, Fingerprints, Outside};
use swim_wire::{Id, Kind, Message, Peer, PeriodNumber, Version};

pub(crate) fn id(member: u8) -> Id {
    Id::new(u32::from(member)).unwrap_or_default()
}

pub(crate) fn address(member: u8) -> Peer {
    Peer {
        ip: [10, 0, 0, member],
        port: 7000,
    }
}

// Of member 1, where a period lasts 3 ticks. Of the three others the last failed.
fn opening(up: [u8; 2], failed: u8, failed_in: u64, last: u64) -> Result<Opening, Fail> {
    let rows = [
        (id(up[0]), address(up[0])),
        (id(up[1]), address(up[1])),
        (id(failed), address(failed)),
    ];
    let all_up = Opening::check(id(1), 2, 1, 3, &rows, last, Version::One).map_err(
        |_| "an opening",
    )?;
    Ok(
        all_up
            .with_failed(id(failed), failed_in)
            .ok_or("a known member")?,
    )
}

// After period 7. Members 2 and 3 are up, and 4 failed in period 5.
pub(crate) fn first_opening() -> Result<Opening, Fail> {
    opening([2, 3], 4, 5, 7)
}

// What the first life leaves: 3 and 5 are up, and 2 failed in period 10.
pub(crate) fn second_opening() -> Result<Opening, Fail> {
    opening([3, 5], 2, 10, 11)
}

pub(crate) fn outside<'a>(version: &'a str, me: Id, fingerprints: &'a Fingerprints) -> Outside<'a> {
    Outside {
        version,
        me,
        tick_ms: 200,
        period: 3,
        journal_limit: 1000,
        behind: 4,
        unsent: 5,
        wire: 6,
        refused: 7,
        forged: 8,
        fenced: 9,
        fingerprints,
        watchers: 10,
        lost_watchers: 11,
        knocks: 12,
        own_joins: 13,
        unwritten: 14,
        files: Some(FileFigures {
            is_ok: true,
            cut: 15,
        }),
    }
}

pub(crate) fn start(judged: Option<Id>, target: u8, number: u64) -> Reply {
    let probe = Probe {
        target: id(target),
        peer: address(target),
        number,
    };
    Reply::Started {
        judged,
        probe: Some(probe),
    }
}

pub(crate) fn asked(target: u8, number: u64, members: &[u8]) -> Reply {
    let mut relays = ArrayVec::new();
    for member in members {
        let relay = Relay {
            id: id(*member),
            peer: address(*member),
        };
        let _ = relays.try_push(relay);
    }
    Reply::Asked {
        target: id(target),
        peer: address(target),
        number,
        relays,
    }
}

// A message of that sender, for a probe of the initiator.
pub(crate) fn message(kind: Kind, sender: u8, initiator: u8, target: u8, number: u64) -> Message {
    Message {
        version: Version::One,
        kind,
        sender: id(sender),
        initiator: id(initiator),
        target: id(target),
        number: PeriodNumber::new(number).unwrap_or_default(),
        at: None,
    }
}

pub(crate) fn heard(kind: Kind, sender: u8, initiator: u8, target: u8, number: u64) -> Call {
    Call::Hear(
        address(sender),
        message(kind, sender, initiator, target, number),
    )
}

pub(crate) fn sent(member: u8, message: Message) -> Reply {
    Reply::Send {
        peer: address(member),
        message,
    }
}

pub(crate) fn dropped(reason: DropReason) -> Reply {
    Reply::Dropped(reason)
}
