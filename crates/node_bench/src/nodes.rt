//! The member whose node is measured, and whom it hears.

use std::alloc::Global;
use swim_history::Opening;
use swim_targets::Scripted;
use swim_wire::{Id, Kind, Message, Peer, PeriodNumber, Version};

/// Where all members stand.
pub(crate) const SOMEWHERE: Peer = Peer {
    ip: [10, 0, 0, 2],
    port: 7000,
};

/// The longest that a period may be, in ticks.
const PERIOD: u32 = 65535;

/// A member that joins and leaves.
pub(crate) fn passer() -> Id {
    Id::new(3).unwrap_or_default()
}

/// Member 1, which knows member 2 and asks no relays.
pub(crate) fn opening() -> Option<Opening> {
    let rows = [(other(), SOMEWHERE)];
    Opening::check(Id::default(), 0, 1, PERIOD, &rows, 0, Version::One).ok()
}

/// A chooser that leaves each order as it is, and takes each last place.
pub(crate) fn no_script(alloc: Global) -> Scripted {
    Scripted::new(Vec::new(alloc), Vec::new(alloc))
}

/// A ping of member 2 for member 1.
pub(crate) fn ping() -> Message {
    Message {
        version: Version::One,
        kind: Kind::Ping,
        sender: other(),
        initiator: other(),
        target: Id::default(),
        number: PeriodNumber::new(1).unwrap_or_default(),
        at: None,
    }
}

/// A member that is listed all the time.
pub(crate) fn other() -> Id {
    Id::new(2).unwrap_or_default()
}
