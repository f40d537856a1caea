//! The entrance of a daemon for those who watch: a Unix socket.

ghost use Rattle.std.specs.Prelude.{◌≡◌, [], IfSome};

use crate::receptions::{Arrival, Guest, Reception};
use crate::stream_outlet::StreamOutlet;
use crate::unix_door::{OF_A_DOOR, OF_AN_OPERATOR, OWN};
use std::alloc::Global;
use std::io;
use std::net::Net;
use std::rt::{Clock, Files};
use std::time::Instant;
use swim_events::Entrance;

/// So many operators are let in however many watch.
const OPERATORS: usize = 4;

/// A Unix socket that only its owner may connect to, or none. Its file stays when it is dropped.
#[derive(Drop)]
pub struct UnixEntrance<K: Clock + Drop> {
    reception: Option<Reception>,
    refused: u64,
    clock: K,
    began: Option<Instant>,
    now: u64,
}

impl<K: Clock + Drop> UnixEntrance<K> {
    /// No socket: nobody can come in.
    pub fn closed(clock: K) -> UnixEntrance<K> {
        UnixEntrance::over(clock, None)
    }

    /// A socket bound to this path, at which no file may exist. Who comes takes none of the descriptors that the daemon
    /// itself needs, nor of those of a door and four operators at it, which come later. Fails where the system refuses
    /// it, or can't make it its owner's alone.
    pub fn bind<R: Files + Net>(
        rt: &R,
        alloc: Global,
        clock: K,
        path: &str,
    ) -> io::Result<UnixEntrance<K>> {
        let kept = OWN + OF_A_DOOR + OPERATORS * OF_AN_OPERATOR;
        let reception = Reception::bind(rt, alloc, path, 1, kept)?;
        Ok(UnixEntrance::over(clock, Some(reception)))
    }

    fn over(clock: K, reception: Option<Reception>) -> UnixEntrance<K> {
        let began = Instant::now(&clock).ok();
        UnixEntrance {
            reception,
            refused: 0,
            clock,
            began,
            now: 0,
        }
    }

    /// How many descriptors those take at most who come in.
    pub fn descriptors(&self) -> usize {
        match &self.reception {
            Some(reception) => reception.places(),
            None => 0,
        }
    }

    /// How many were turned away so far, for want of descriptors or memory.
    pub fn refused(&self) -> u64 {
        self.refused
    }
}

impl<K: Clock + Drop> Entrance<StreamOutlet> for UnixEntrance<K> {
    fn next(&mut self) -> Option<StreamOutlet>
        ensures { IfSome result (λ outlet. outlet.taken ≡ []) }
    {
        match self.reception.as_mut()?.next() {
            Arrival::Came(Guest { stream, place }) => Some(StreamOutlet::new(stream, place)),
            Arrival::Refused => {
                self.refused = self.refused.saturating_add(1);
                None
            }
            Arrival::Nobody | Arrival::Fault => None,
        }
    }

    fn now(&mut self) -> u64 {
        if let Some(began) = &self.began {
            if let Ok(time) = began.elapsed(&self.clock) {
                self.now = u64::try_from(time.as_millis()).unwrap_or(u64::MAX);
            }
        }
        self.now
    }
}
