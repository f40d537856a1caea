//! The entrance at a daemon's events' socket, with a count of the connections that are turned away there.

use std::rt::Clock;
use swim_devices::{StreamOutlet, UnixEntrance};
use swim_events::Entrance;
use swim_reports::Refusals;

/// An entrance whose refusals are counted.
#[derive(Drop)]
pub struct CountedEntrance<'c, K: Clock + Drop> {
    entrance: UnixEntrance<K>,
    counted: u64,
    refusals: &'c Refusals,
}

impl<'c, K: Clock + Drop> CountedEntrance<'c, K> {
    /// That entrance, of whose refusals none were counted yet.
    pub fn new(entrance: UnixEntrance<K>, refusals: &'c Refusals) -> CountedEntrance<'c, K> {
        CountedEntrance {
            entrance,
            counted: 0,
            refusals,
        }
    }
}

impl<'c, K: Clock + Drop> Entrance<StreamOutlet> for CountedEntrance<'c, K> {
    fn next(&mut self) -> Option<StreamOutlet> {
        let next = self.entrance.next();
        let refused = self.entrance.refused();
        if refused != self.counted {
            self.refusals.add(refused.saturating_sub(self.counted));
            self.counted = refused;
        }
        next
    }

    fn now(&mut self) -> u64 {
        self.entrance.now()
    }
}
