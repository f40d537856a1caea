//! Members, and what a life of one begins with.

use swim_history::{Opening, OpeningFault};
use swim_targets::Seeded;
use swim_wire::{Id, Peer, Version};

/// That id, or 1 where it is none.
pub fn id(number: u32) -> Id {
    Id::new(number).unwrap_or_default()
}

/// Where members stand: at 10.0.0.2:7000, 10.0.0.3:7000, ..
pub fn at(last: u8) -> Peer {
    Peer {
        ip: [10, 0, 0, last],
        port: 7000,
    }
}

/// Member 1, which knows members 2 and 3, asks one relay, and has a timeout of one tick and a period of three.
pub fn opening() -> Result<Opening, OpeningFault> {
    let rows = [(id(2), at(2)), (id(3), at(3))];
    Opening::check(id(1), 1, 1, 3, &rows, 0, Version::One)
}

/// Member 1, which knows member 2 and asks no relay.
pub fn pair() -> Result<Opening, OpeningFault> {
    let rows = [(id(2), at(2))];
    Opening::check(id(1), 0, 1, 3, &rows, 0, Version::One)
}

/// It draws from a seed of zeros.
pub fn chooser() -> Seeded {
    Seeded::new([0; 32])
}
