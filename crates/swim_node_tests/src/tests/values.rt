//! Members, messages and openings.

use super::*;

/// That id, or 1 where it is none.
pub(crate) fn id(number: u32) -> Id {
    Id::new(number).unwrap_or_default()
}

/// Where members stand: at 10.0.0.1:7000, 10.0.0.2:7000, ..
pub(crate) fn at(last: u8) -> Peer {
    Peer {
        ip: [10, 0, 0, last],
        port: 7000,
    }
}

/// Member 1, which knows members 2 and 3, asks so many relays, and has a timeout of one tick and a period of three.
pub(crate) fn opening(k: u32) -> Result<Opening, OpeningFault> {
    let rows = [(id(2), at(2)), (id(3), at(3))];
    Opening::check(id(1), k, 1, 3, &rows, 0, Version::One)
}

/// It leaves each order as it is, and takes each last place.
pub(crate) fn no_script(alloc: Global) -> Scripted {
    Scripted::new(Vec::new(alloc), Vec::new(alloc))
}

/// These members in that order, as far as there is room.
pub(crate) fn order_of(numbers: &[u32]) -> Order {
    let mut order = Order::new();
    for number in numbers {
        let _ = order.try_push(id(*number));
    }
    order
}

/// A member that is up.
pub(crate) fn up(member: u8) -> Row {
    Row {
        id: id(u32::from(member)),
        peer: at(member),
        state: RowState::Up,
    }
}

/// A message of a member, about its own probe.
pub(crate) fn message(kind: Kind, initiator: u32, target: u32, number: u64) -> Message {
    Message {
        version: Version::One,
        kind,
        sender: id(if kind == Kind::Ack { target } else { initiator }),
        initiator: id(initiator),
        target: id(target),
        number: PeriodNumber::new(number).unwrap_or_default(),
        at: None,
    }
}
