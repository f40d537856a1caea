//! What is kept for other members' probes.

ghost use Rattle.std.specs.Prelude.{◌≡◌, ◌==◌, ◌||◌, nat_lt, ◌↔◌, ◌≤◌, ◌+◌, ◌%◌, ◌^◌, [], ◌∷◌, ◌++◌, length, false};
ghost use Rattle.std.specs.Prelude.{IsErr, OnOk, OnErr, slice_get};
ghost use Rattle.std.specs.Option.{option_map};
ghost use Rattle.swim_wire.specs.Requests.{waits, forget, asker_for, aged};
ghost use Rattle.swim_relays.specs.Waiting.{AreWaiting};

use crate::waiting::{DueRequest, DueRequests, MOST_WAITING, expire, place_of};
use std::marker::Model;
use swim_wire::{Key, Peer, Version};
use thiserror::Error;

/// 64 requests wait, and none of them is of this probe.
#[derive(Clone, Copy, Debug, PartialEq, Eq, Error)]
#[error("64 requests wait")]
pub struct TableFull;

impl TableFull {
    /// The number of this fault, which is the only one.
    pub fn number(self) -> u8
        ensures { result ≡ 1 }
    {
        match self {
            TableFull => 1,
        }
    }
}

/// The requests that wait for an ack of their target, at most 64, and each probe's at most once (section
/// 3.1 of the SWIM paper). A request waits for as many ticks as a period has. Ticks are counted modulo 2^32.
#[derive(Drop)]
pub struct Relays {
    period: u32,
    count: u32,
    entries: DueRequests,
}

impl Model for Relays {
    ghost use Rattle.swim_relays.specs.Waiting.{Waiting};
    ghost use Rattle.swim_relays.specs.Due.{requests_at, AreKept};

    ghost Value = { Waiting };

    ghost view = { λ relays. record {
      period = relays.period;
      count = relays.count;
      waiting = requests_at relays.count relays.entries.items;
    } };

    ghost invariant = { λ relays. AreKept relays.period relays.count relays.entries.items };
}

impl Relays {
    /// No requests, where no tick passed. A period has 1 to 65535 ticks.
    pub fn new(period: u32) -> Relays
        requires least { 1 ≤ period }
        requires most { period ≤ 65535 }
        ensures { result ≡ record { period = period; count = 0; waiting = [] } }
    {
        Relays::starting(period, 0)
    }

    /// No requests, where so many ticks passed. A period has 1 to 65535 ticks.
    pub fn starting(period: u32, now: u32) -> Relays
        requires least { 1 ≤ period }
        requires most { period ≤ 65535 }
        ensures { result ≡ record { period = period; count = now; waiting = [] } }
    {
        Relays {
            period,
            count: now,
            entries: DueRequests::new(),
        }
    }

    /// A member asks for an ack of that probe, in that version. Its request is the last, with a whole period left, and
    /// takes the place of one of the same probe. An `Err` changes nothing.
    pub fn ask(&mut self, key: Key, peer: Peer, version: Version) -> Result<(), TableFull>
        ensures ok { OnOk result (self.new ≡ record self.old {
          waiting = forget key self.old.waiting ++ record { key = key; peer = peer; version = version; left = self.old.period } ∷ [];
        }) }
        ensures full { IsErr result
            ↔ ((waits key self.old.waiting ≡ false) × (length self.old.waiting ≡ MOST_WAITING)) }
        ensures err { OnErr result (self.new ≡ self.old) }
        ensures kept { AreWaiting self.new }
    {
        if !self.has_room(&key) {
            return Err(TableFull);
        }
        self.take(&key);
        self.entries.push(DueRequest {
            key,
            peer,
            version,
            due: self.count.wrapping_add(self.period),
        });
        Ok(())
    }

    // Whether a request of that probe waits, or there is room for one more.
    fn has_room(&self, key: &Key) -> bool
        ensures value { result ≡ (waits key.now self.now.waiting || nat_lt (length self.now.waiting) MOST_WAITING) }
        ensures kept { AreWaiting self.now }
    {
        self.waits(key) || !self.entries.is_full()
    }

    /// An ack of that probe came: who is to get it, and in which version, if anyone asked. The request waits no more.
    pub fn answer(&mut self, key: &Key) -> Option<(Peer, Version)>
        ensures asker { result ≡ asker_for key.now self.old.waiting }
        ensures waiting { self.new ≡ record self.old { waiting = forget key.now self.old.waiting } }
        ensures kept { AreWaiting self.new }
    {
        self.take(key)
    }

    // Takes the request of that probe out, and answers who is to get the ack, and in which version.
    fn take(&mut self, key: &Key) -> Option<(Peer, Version)>
        ensures asker { result ≡ asker_for key.now self.old.waiting }
        ensures waiting { self.new ≡ record self.old { waiting = forget key.now self.old.waiting } }
        ensures kept { AreWaiting self.new }
    {
        let place = place_of(self.entries.as_slice(), key)?;
        let request = self.entries.remove(place);
        Some((request.peer, request.version))
    }

    /// A tick passes and is counted: each request has one tick less, and one that has none left is forgotten.
    /// Where none is forgotten, the cost doesn't grow with the requests that wait.
    pub fn tick(&mut self)
        ensures waiting { self.new ≡ record self.old {
          count = (self.old.count + 1) % 2 ^ 32;
          waiting = aged self.old.waiting;
        } }
        ensures kept { AreWaiting self.new }
    {
        self.count = self.count.wrapping_add(1);
        expire(&mut self.entries, self.count);
    }

    /// The count of ticks at which the first request is forgotten, if none asks again or is answered.
    pub fn due(&self) -> Option<u32>
        ensures value { result
            ≡ option_map (λ request. (self.now.count + request.left) % 2 ^ 32) (slice_get self.now.waiting 0) }
        ensures kept { AreWaiting self.now }
    {
        self.entries.as_slice().first().map(|entry| entry.due)
    }

    /// Whether a request of that probe waits.
    pub fn waits(&self, key: &Key) -> bool
        ensures value { result ≡ waits key.now self.now.waiting }
        ensures kept { AreWaiting self.now }
    {
        place_of(self.entries.as_slice(), key).is_some()
    }

    /// How many requests wait, at most 64.
    pub fn len(&self) -> usize
        ensures value { result ≡ length self.now.waiting }
        ensures kept { AreWaiting self.now }
    {
        self.entries.len()
    }

    /// Whether no request waits.
    pub fn is_empty(&self) -> bool
        ensures value { result ≡ (length self.now.waiting == 0) }
        ensures kept { AreWaiting self.now }
    {
        self.entries.is_empty()
    }
}
