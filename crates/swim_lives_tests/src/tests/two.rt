//! Two daemons over the UDP sockets of this machine.

ghost use Rattle.std.specs.Prelude.{None};
ghost use Rattle.swim_work.specs.Gates.{FitsInto};

use super::*;
use std::net::{Net, UdpSocket};
use std::thread::join;
use swim_devices::{UdpEndpoint, UdpLine};

// What tells when the receiver asked again after a datagram.
#[derive(Drop)]
struct Watch {
    has_heard: AtomicBool,
    has_asked_again: AtomicBool,
}

impl Watch {
    fn new() -> Watch {
        Watch {
            has_heard: AtomicBool::new(false),
            has_asked_again: AtomicBool::new(false),
        }
    }
}

// A line that tells its watch.
#[derive(Drop)]
struct WatchedLine<'s> {
    line: UdpLine<'s>,
    watch: &'s Watch,
}

impl<'s> Line for WatchedLine<'s> {
    ghost received = { λ line. None };

    ghost listed = { λ line. None };

    fn receive<R: Wait>(&mut self, rt: &R, bytes: &mut [u8]) -> Got
        ensures { FitsInto result bytes.new }
    {
        if is_set(&self.watch.has_heard) {
            set(&self.watch.has_asked_again);
        }
        let got = self.line.receive(rt, bytes);
        if matches!(got, Got::Datagram(..)) {
            set(&self.watch.has_heard);
        }
        got
    }

    fn list(&mut self, _members: &[Peer]) {}
}

// A tick, then, once the signal is set, three more, and a stop.
#[derive(Drop)]
struct FourTicks<'s, K: Clock + Drop> {
    clock: K,
    signal: &'s AtomicBool,
    ticks: u32,
    turns: u32,
}

impl<'s, K: Clock + Drop> Pace for FourTicks<'s, K> {
    ghost beats = { λ pace. None };

    fn next<R: Wait>(&mut self, _rt: &R) -> Beat {
        if self.ticks == 1 && self.turns < TURNS && !is_set(self.signal) {
            self.turns += 1;
            pause(&self.clock);
            return Beat::Idle;
        }
        if self.ticks == 4 {
            return Beat::Stop;
        }
        self.ticks = self.ticks.saturating_add(1);
        Beat::Tick
    }
}

// A daemon pings another of the same process, and hears its ack in time.
#[test]
fn two_daemons(rt: HostRuntime) -> Result<(), Fail> {
    let (first, _first_peer) = endpoint(&rt)?;
    let (second, second_peer) = endpoint(&rt)?;
    let rows = [(id(2), second_peer)];
    let first_opening = Opening::check(id(1), 0, 1, 3, &rows, 0, Version::One).map_err(
        |_| "an opening",
    )?;
    let second_opening = Opening::check(id(2), 0, 1, 3, &[], 0, Version::One).map_err(
        |_| "an opening",
    )?;
    let has_ended = AtomicBool::new(false);
    let watch = Watch::new();
    let (past, other) = join(
        &rt,
        || {
            let past = ticking(rt, rt.alloc(), first_opening, &first, &watch);
            set(&has_ended);
            past
        },
        || answering(rt, rt.alloc(), second_opening, &second, &has_ended),
    );
    assert!(rt; other.is_some());
    match past {
        Some(past) => assert_heard(&rt, &past.journal, second_peer),
        None => panic!(rt; "a node"),
    }
    Ok(())
}

fn assert_heard<R: Abort>(rt: &R, journal: &Journal, peer: Peer) {
    let started = |number| Reply::Started {
        judged: None,
        probe: Some(Probe {
            target: id(2),
            peer,
            number,
        }),
    };
    assert!(rt; replied(journal, 0, &started(1)));
    assert!(rt; replied(journal, 1, &Reply::Heard));
    assert!(rt; replied(journal, 2, &Reply::Quiet));
    assert!(rt; replied(journal, 3, &Reply::Quiet));
    assert!(rt; replied(journal, 4, &started(2)));
    assert!(rt; journal.len() <= 6);
    assert_same(rt, &journal.judged_count(), &0);
}

fn replied(journal: &Journal, place: u32, reply: &Reply) -> bool {
    match journal.entry(place) {
        Some(entry) => entry.reply == *reply,
        None => false,
    }
}

fn endpoint<R: Net>(rt: &R) -> Result<(UdpEndpoint, Peer), Fail> {
    let socket = UdpSocket::bind(rt, "127.0.0.1:0").map_err(|_| "a socket")?;
    let address = socket.local_addr().map_err(|_| "its address")?;
    let peer = peer_at(address.port()).ok_or("a port")?;
    let endpoint = UdpEndpoint::over(socket).map_err(|_| "an endpoint")?;
    Ok((endpoint, peer))
}

// The address of a socket of this machine with that port, if it is one.
fn peer_at(port: u16) -> Option<Peer> {
    if port == 0 {
        return None;
    }
    let ip = [127, 0, 0, 1];
    Some(Peer { ip, port })
}

// The life of the first, which ticks.
fn ticking<'s, R: Threads + Wait + Clock + Send + Sync + Copy + Drop>(
    rt: R,
    alloc: Global,
    opening: Opening,
    endpoint: &'s UdpEndpoint,
    watch: &'s Watch,
) -> Option<Past> {
    let line = WatchedLine {
        line: endpoint.line(),
        watch,
    };
    let pace = FourTicks {
        clock: rt,
        signal: &watch.has_asked_again,
        ticks: 0,
        turns: 0,
    };
    let door = NoDoor { clock: rt };
    let gates = (line, endpoint.post(), pace, door);
    live_over(&rt, alloc, opening, 1000, gates).ok().flatten()
}

// The life of the second, which ends after the first's.
fn answering<'s, R: Threads + Wait + Clock + Send + Sync + Copy + Drop>(
    rt: R,
    alloc: Global,
    opening: Opening,
    endpoint: &'s UdpEndpoint,
    has_ended: &'s AtomicBool,
) -> Option<Past> {
    let door = NoDoor { clock: rt };
    let gates = (
        endpoint.line(),
        endpoint.post(),
        pace(rt, has_ended, 0),
        door,
    );
    live_over(&rt, alloc, opening, 1000, gates).ok().flatten()
}
