//! Datagrams that nobody of the group sent, and more than the fence lets in. Who receives notes how many there are, and
//! another thread tells of them, so that no datagram waits for a line on standard error.

ghost use Rattle.std.specs.Prelude.{◌≡◌, ◌≤◌, ◌∷◌, [], length};
ghost use Rattle.swim_work.specs.Gates.{FitsInto};
ghost use Rattle.swim_trail.specs.Growing.{Grows};

use crate::thrown::{Sieve, Thrown};
use std::marker::Model;
use std::sync::Wait;
use std::sync::atomic::{AtomicU64, Ordering};
use swim_wire::{KNOWN_MEMBERS, Peer};
use swim_work::{Got, Line};

/// How many datagrams were thrown away, and where the newest came from, as two threads share it.
#[derive(Drop)]
pub struct SharedThrown {
    count: AtomicU64,
    newest: AtomicU64,
}

impl SharedThrown {
    /// None was yet.
    fn new() -> SharedThrown {
        SharedThrown {
            count: AtomicU64::new(0),
            newest: AtomicU64::new(0),
        }
    }

    /// How many were until now.
    pub fn count(&self) -> u64 {
        self.count.load(Ordering::SeqCst)
    }

    /// Where the newest came from.
    pub fn newest(&self) -> Option<Peer> {
        unpacked(self.newest.load(Ordering::SeqCst))
    }

    /// So many were by now.
    fn note(&self, thrown: Thrown) {
        if thrown.count == self.count() {
            return;
        }
        if let Some(newest) = thrown.newest {
            self.newest.store(packed(newest), Ordering::SeqCst);
            self.count.store(thrown.count, Ordering::SeqCst);
        }
    }
}

/// What a daemon throws away: what came faster than the fence lets in, and of the rest what has no tag by a key of the
/// group.
#[derive(Drop)]
pub struct Strangers {
    /// What came faster than the fence lets in.
    pub fenced: SharedThrown,
    /// What has no tag by a key of the group.
    pub forged: SharedThrown,
}

/// How many there were of each kind.
#[derive(Clone, Copy)]
pub struct StrangerCounts {
    pub fenced: u64,
    pub forged: u64,
}

impl Strangers {
    /// None came yet.
    pub fn new() -> Strangers {
        Strangers {
            fenced: SharedThrown::new(),
            forged: SharedThrown::new(),
        }
    }

    /// How many came until now.
    pub fn counts(&self) -> StrangerCounts {
        StrangerCounts {
            fenced: self.fenced.count(),
            forged: self.forged.count(),
        }
    }
}

/// An address as a number.
fn packed(peer: Peer) -> u64 {
    let [first, second, third, fourth] = peer.ip;
    let [high, low] = peer.port.to_be_bytes();
    u64::from_be_bytes([0, 0, first, second, third, fourth, high, low])
}

/// The address that a number is, if it is one.
fn unpacked(number: u64) -> Option<Peer> {
    let [_, _, first, second, third, fourth, high, low] = number.to_be_bytes();
    let port = u16::from_be_bytes([high, low]);
    if port == 0 {
        return None;
    }
    Some(Peer {
        ip: [first, second, third, fourth],
        port,
    })
}

/// A line over one that throws datagrams away, which notes how many.
#[derive(Drop)]
pub struct NotingLine<'s, L: Sieve> {
    line: L,
    thrown: &'s SharedThrown,
}

// A contract sees the line below.
impl<'s, L: Sieve> Model for NotingLine<'s, L> {
    ghost Value = { L };

    ghost view = { λ n. n.line };
}

impl<'s, L: Sieve> NotingLine<'s, L> {
    /// A line over that one, which notes there what that one throws away.
    pub fn new(line: L, thrown: &'s SharedThrown) -> NotingLine<'s, L>
        ensures { result ≡ line }
    {
        NotingLine { line, thrown }
    }
}

impl<'s, L: Sieve> Line for NotingLine<'s, L> {
    ghost received = { λ n. L.received n };

    ghost listed = { λ n. L.listed n };

    fn receive<R: Wait>(&mut self, rt: &R, bytes: &mut [u8]) -> Got
        ensures fits { FitsInto result bytes.new }
        ensures received { Grows (L.received self.old) (L.received self.new)
            (record { got = result; bytes = bytes.new } ∷ []) }
        ensures listed { L.listed self.new ≡ L.listed self.old }
    {
        let got = self.line.receive(rt, bytes);
        self.thrown.note(self.line.thrown());
        got
    }

    fn list(&mut self, members: &[Peer])
        requires { length members.now ≤ KNOWN_MEMBERS }
        ensures received { L.received self.new ≡ L.received self.old }
        ensures listed { Grows (L.listed self.old) (L.listed self.new) (members.now ∷ []) }
    {
        self.line.list(members);
    }
}
