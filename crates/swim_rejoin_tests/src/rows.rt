//! Members, their rows and their messages, as the tests tell them, and what compares two values.

use std::fmt::Debug;
use std::process::Abort;
use swim_history::{Row, RowState};
use swim_rejoin::Rejoiner;
use swim_wire::{Id, Kind, Message, Peer, PeriodNumber, Version};

/// The two are the same. A call of this is proved at once, and an `assert_eq!` in some seconds.
pub(crate) fn assert_same<T: PartialEq + Debug, R: Abort>(rt: &R, left: &T, right: &T) {
    assert_eq!(rt; *left, *right);
}

/// A rejoiner of member 1, while each `rejoin`-th start has a knock.
pub(crate) fn rejoiner(rejoin: u16) -> Rejoiner {
    let mut rejoiner = Rejoiner::new(id(1));
    rejoiner.rule(rejoin);
    rejoiner
}

/// The member with that id.
pub(crate) fn id(number: u32) -> Id {
    Id::new(number).unwrap_or_default()
}

/// The period with that number.
pub(crate) fn period(number: u64) -> PeriodNumber {
    PeriodNumber::new(number).unwrap_or_default()
}

/// The address whose last octet is that.
pub(crate) fn peer(octet: u8) -> Peer {
    Peer {
        ip: [10, 0, 0, octet],
        port: 7000,
    }
}

/// A member that is up, at the address of its own number.
pub(crate) fn up(member: u8) -> Row {
    Row {
        id: id(u32::from(member)),
        peer: peer(member),
        state: RowState::Up,
    }
}

/// A member that was judged at the end of that period, at the address of its own number.
pub(crate) fn failed(member: u8, number: u64) -> Row {
    Row {
        id: id(u32::from(member)),
        peer: peer(member),
        state: RowState::Failed(number),
    }
}

/// A message.
pub(crate) fn message(
    kind: Kind,
    sender: u32,
    initiator: u32,
    target: u32,
    number: u64,
) -> Message {
    Message {
        version: Version::One,
        kind,
        sender: id(sender),
        initiator: id(initiator),
        target: id(target),
        number: period(number),
        at: None,
    }
}

/// The ack that a member sends to member 1, which knocked at it with that number.
pub(crate) fn ack(member: u8, number: u64) -> Message {
    message(Kind::Ack, u32::from(member), 1, u32::from(member), number)
}
