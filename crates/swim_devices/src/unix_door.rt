//! The door of a daemon: a Unix socket.

ghost use Rattle.std.specs.Prelude.{◌≡◌, [], ◌∷◌, ◌++◌, IfOk, Some, map};
ghost use Rattle.swim_desk.specs.Doors.{ComesNew, is_fault};
ghost use Rattle.swim_devices.specs.Streams.{IsNew, fresh_sink, fresh_source};

use crate::receptions::{Arrival, Guest, Reception};
use crate::unix_streams::{StreamSink, StreamSource};
use mio::unix::SourceFd;
use mio::{Events, Interest, Poll, Token};
use std::alloc::Global;
use std::io;
use std::marker::Model;
use std::net::Net;
use std::os::fd::{AsRawFd, RawFd};
use std::rt::{Clock, Files};
use std::sync::Wait;
use std::time::{Duration, Instant};
use swim_desk::{Door, Knock};
use swim_trail::Trail;

/// How long the door waits, in milliseconds.
const WAIT_MS: u64 = 100;

/// How many descriptors are kept for what the daemon itself opens while it runs: the files of two lives and of metrics,
/// a folder that is read, what standard error is asked with, and some more.
pub(crate) const OWN: usize = 8;

/// How many a door takes: its socket, the one to turn others away with, and what it waits by.
pub(crate) const OF_A_DOOR: usize = 3;

/// How many an operator takes.
pub(crate) const OF_AN_OPERATOR: usize = 2;

/// How many events are taken at a time. They only end a wait, so none is missed.
const EVENTS: usize = 64;

/// A Unix socket that only its owner may connect to. Its file stays when it is dropped. A contract sees of each of its
/// answers so far whether it was a fault.
#[derive(Drop)]
pub struct UnixDoor<K: Clock + Drop> {
    alloc: Global,
    reception: Reception,
    poll: Poll,
    events: Events<Global>,
    clock: K,
    began: Instant,
    now: u64,
    faults: Trail<bool>,
}

impl<K: Clock + Drop> Model for UnixDoor<K> {
    ghost use Rattle.std.specs.Prelude.{Bool, List, map};
    ghost use Rattle.swim_trail.specs.Noted.{value_in};

    ghost Value = { List Bool };

    ghost view = { λ d. map value_in d.faults.items };
}

impl<K: Clock + Drop> UnixDoor<K> {
    /// A socket bound to this path, at which no file may exist. Who comes takes none of the descriptors that the daemon
    /// itself needs, nor of these many others. Fails where the system refuses it, or can't make it its owner's alone.
    pub fn bind<R: Files + Net>(
        rt: &R,
        alloc: Global,
        clock: K,
        path: &str,
        others: usize,
    ) -> io::Result<UnixDoor<K>>
        ensures { IfOk result (λ door. door ≡ []) }
    {
        let poll = Poll::new(rt)?;
        let events = Events::with_capacity(alloc, EVENTS)?;
        let reception = Reception::bind(
            rt,
            alloc,
            path,
            OF_AN_OPERATOR,
            OWN.saturating_add(others),
        )?;
        watch(&poll, reception.as_raw_fd())?;
        let began = Instant::now(&clock)?;
        Ok(UnixDoor {
            alloc,
            reception,
            poll,
            events,
            clock,
            began,
            now: 0,
            faults: Trail::new(),
        })
    }

    /// Asks the socket once who comes, and notes whether the answer is a fault. Nothing else notes anything.
    #[tactic(auto, using(swim_trail::specs::Noted::map_more))]
    fn knock(&mut self) -> Knock<StreamSource, StreamSink>
        ensures noted { self.new ≡ self.old ++ is_fault result ∷ [] }
        ensures fresh { IsNew result }
    {
        let knock = self.answer();
        self.faults.note(&is_fault(&knock), &[]);
        knock
    }

    /// Who comes, as the socket answers it once.
    fn answer(&mut self) -> Knock<StreamSource, StreamSink>
        ensures same { self.new ≡ self.old }
        ensures fresh { IsNew result }
    {
        match self.reception.next() {
            Arrival::Came(guest) => match self.open(guest) {
                Ok((reader, writer)) => Knock::Conn(reader, writer),
                Err(_) => Knock::Refused,
            },
            Arrival::Nobody => Knock::Idle,
            Arrival::Refused => Knock::Refused,
            Arrival::Fault => Knock::Fault,
        }
    }

    /// A connection as it is served.
    fn open(&self, guest: Guest) -> io::Result<(StreamSource, StreamSink)>
        ensures { IfOk result (λ ends. (ends.0 ≡ fresh_source) × (ends.1 ≡ fresh_sink)) }
    {
        let Guest { stream, place } = guest;
        let other = stream.try_clone()?;
        watch(&self.poll, stream.as_raw_fd())?;
        Ok((
            StreamSource::new(stream),
            StreamSink::new(self.alloc, other, place),
        ))
    }
}

/// Whether what came to a door says that the door is out of order.
fn is_fault<A: Drop, B: Drop>(knock: &Knock<A, B>) -> bool
    ensures { result ≡ is_fault knock.now }
{
    matches!(knock, Knock::Fault)
}

/// Has a wait end where something comes to a descriptor, or it has room again.
fn watch(poll: &Poll, descriptor: RawFd) -> io::Result<()> {
    let both = Interest::READABLE | Interest::WRITABLE;
    poll.registry()
        .register(&mut SourceFd(&descriptor), Token(0), both)
}

impl<K: Clock + Drop> Door for UnixDoor<K> {
    ghost faults = { λ d. Some d };

    type Reader = StreamSource;

    type Writer = StreamSink;

    #[tactic(auto, using(crate::proofs::Streamed::new_comes))]
    fn next<R: Wait>(&mut self, _rt: &R) -> Knock<StreamSource, StreamSink>
        ensures noted { self.new ≡ self.old ++ is_fault result ∷ [] }
        ensures fresh { IsNew result }
        ensures newcomer { ComesNew (λ reader. Some reader.taken) (λ writer. Some writer.put) result }
    {
        self.knock()
    }

    fn wait<R: Wait>(&mut self, _rt: &R)
        ensures { self.new ≡ self.old }
    {
        let time = Some(Duration::from_millis(WAIT_MS));
        let _is_waited = self.poll.poll(&mut self.events, time);
    }

    fn now(&mut self) -> u64
        ensures { self.new ≡ self.old }
    {
        if let Ok(time) = self.began.elapsed(&self.clock) {
            self.now = u64::try_from(time.as_millis()).unwrap_or(u64::MAX);
        }
        self.now
    }
}
