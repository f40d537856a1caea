//! Guests: connections that have their turns side by side, and none of which is waited for.

ghost use Rattle.std.specs.Prelude.{◌≡◌, box_value};
ghost use Rattle.http_server.specs.Connection.{config_of};
ghost use Rattle.swim_web.specs.Asked.{OnlyLooks};
ghost use Rattle.swim_web.specs.Guests.{is_late};
ghost use Rattle.swim_web.specs.Limits.{guest_config};

use crate::daemons::Daemon;
use crate::limits::limits;
use crate::services::Web;
use crate::shelves::Shelf;
use crate::turns::advance;
use http_server::Connection;
use mio::net::TcpStream;
use std::alloc::Global;
use std::hash::RandomState;
use std::io;
use std::io::{ErrorKind, Read};
use std::net::Shutdown;
use std::time::{Duration, Instant};

/// How many reads and writes a turn makes at most.
const STEPS: u32 = 16;

/// How many bytes are thrown away by one read.
const THROWN_BYTES: usize = 4_096;

/// How a guest stands after a turn.
#[derive(Clone, Copy, Debug, PartialEq, Eq)]
pub enum Stand {
    /// Nothing more can be done until the guest sends or takes something.
    Waits,
    /// There may be more to do.
    Busy,
    /// The connection is to be closed.
    Over,
}

/// A connection over TCP.
#[derive(Drop)]
pub struct Guest {
    connection: Connection,
    stream: TcpStream,
    // When its time began: with its first turn, and after each answer with the next one. The turn that answers it
    // doesn't count, however slow the daemon is; slow turns of others do.
    since: Option<Instant>,
    stand: Stand,
}

impl Guest {
    /// Returns a guest whose time begins with its first turn, and whose requests are held to the limits.
    pub(crate) fn new(alloc: Global, keys: RandomState, stream: TcpStream) -> Guest
        ensures { config_of result.connection ≡ guest_config }
    {
        Guest {
            connection: Connection::new(alloc, keys, limits()),
            stream,
            since: None,
            stand: Stand::Busy,
        }
    }

    /// Returns how it stands after its last turn.
    pub fn stand(&self) -> Stand {
        self.stand
    }

    /// Has a turn that began at this moment. A guest whose request or answer takes longer than `most` is over, unless
    /// this turn answers its next request.
    fn turn<D: Daemon + Drop, S: Shelf + Drop>(
        &mut self,
        web: &mut Web<D, S>,
        now: Instant,
        most: Duration,
    )
        ensures { OnlyLooks (D.asked (box_value web.old.daemon)) (D.asked (box_value web.new.daemon))
            × (web.new.recent ≡ web.old.recent) × (web.new.names ≡ web.old.names) }
    {
        let since = self.since.unwrap_or(now);
        self.since = Some(since);
        self.go_on(web);
        if is_late(self.since, now, most) {
            self.stand = Stand::Over;
        }
    }

    /// Goes on with its requests. Behind its last answer, what it still sends is thrown away.
    #[tactic(auto, using(crate::proofs::Looking::looks_none))]
    fn go_on<D: Daemon + Drop, S: Shelf + Drop>(&mut self, web: &mut Web<D, S>)
        ensures { OnlyLooks (D.asked (box_value web.old.daemon)) (D.asked (box_value web.new.daemon))
            × (web.new.recent ≡ web.old.recent) × (web.new.names ≡ web.old.names) }
    {
        if self.connection.is_done() {
            self.stand = throw_away(&mut self.stream);
        } else {
            self.take_steps(web);
        }
    }

    /// Takes steps until nothing more can be done, a request was answered, or there were as many as a turn has.
    #[tactic(auto, using(crate::proofs::Looking::looks_none))]
    fn take_steps<D: Daemon + Drop, S: Shelf + Drop>(&mut self, web: &mut Web<D, S>)
        ensures { OnlyLooks (D.asked (box_value web.old.daemon)) (D.asked (box_value web.new.daemon))
            × (web.new.recent ≡ web.old.recent) × (web.new.names ≡ web.old.names) }
    {
        self.stand = Stand::Busy;
        for _step in 0..STEPS {
            if !self.take_step(web) {
                return;
            }
        }
    }

    /// Answers its next request, if that came whole, and then writes or reads once. Returns whether its turn goes on:
    /// that of a guest who sends many requests ends with the first answer, so that others have theirs between.
    fn take_step<D: Daemon + Drop, S: Shelf + Drop>(&mut self, web: &mut Web<D, S>) -> bool
        ensures { OnlyLooks (D.asked (box_value web.old.daemon)) (D.asked (box_value web.new.daemon))
            × (web.new.recent ≡ web.old.recent) × (web.new.names ≡ web.old.names) }
    {
        let is_answered = self.answer(web);
        self.stand = step(&mut self.connection, &mut self.stream);
        if self.connection.is_done() {
            self.hang_up();
            return false;
        }
        !is_answered && self.stand == Stand::Busy
    }

    /// Answers its next request, if that came whole and the answer to the one before is taken, and then begins its time
    /// anew. Returns whether it did.
    fn answer<D: Daemon + Drop, S: Shelf + Drop>(&mut self, web: &mut Web<D, S>) -> bool
        ensures { OnlyLooks (D.asked (box_value web.old.daemon)) (D.asked (box_value web.new.daemon))
            × (web.new.recent ≡ web.old.recent) × (web.new.names ≡ web.old.names) }
    {
        let had_output = self.connection.wants_write();
        advance(&mut self.connection, web);
        let is_answered = self.connection.wants_write() && !had_output;
        if is_answered {
            self.since = None;
        }
        is_answered
    }

    /// Says behind its last answer that no more comes. A connection that is closed in front of bytes that weren't read
    /// is reset, and so its guest may lose that answer: what it still sends is read first, in its next turns.
    fn hang_up(&mut self) {
        self.since = None;
        self.stand = match self.stream.shutdown(Shutdown::Write) {
            Ok(()) => Stand::Busy,
            Err(_) => Stand::Over,
        };
    }
}

/// Returns whether more than `most` has passed since a guest's time began, if it began.
fn is_late(since: Option<Instant>, now: Instant, most: Duration) -> bool
    ensures { result ≡ is_late since now most }
{
    match since {
        Some(since) => now.duration_since(since).as_nanos() > most.as_nanos(),
        None => false,
    }
}

/// Writes what waits to be written, and otherwise reads what comes.
fn step(connection: &mut Connection, stream: &mut TcpStream) -> Stand {
    if connection.wants_write() {
        return stand_after(connection.write_to(stream));
    }
    if connection.wants_read() {
        // A read of no byte is the end of the input, which the connection notes.
        return stand_after(connection.read_from(stream).map(|_| 1));
    }
    Stand::Over
}

/// Reads what comes, and forgets it.
fn throw_away(stream: &mut TcpStream) -> Stand {
    let mut bytes = [0u8; THROWN_BYTES];
    for _step in 0..STEPS {
        let stand = stand_after(stream.read(&mut bytes));
        if stand != Stand::Busy {
            return stand;
        }
    }
    Stand::Busy
}

/// Returns how a guest stands after a read or a write that moved so many bytes.
fn stand_after(moved: io::Result<usize>) -> Stand {
    match moved {
        Ok(0) => Stand::Over,
        Ok(_) => Stand::Busy,
        Err(fault) if fault.kind() == ErrorKind::WouldBlock => Stand::Waits,
        Err(fault) if fault.kind() == ErrorKind::Interrupted => Stand::Busy,
        Err(_) => Stand::Over,
    }
}

/// Gives each guest a turn, in which at most one of its requests is answered. A request may take `most` to come, from
/// the turn behind the answer before it on, and its answer as long to be taken. Whatever guests send, the daemon is
/// only looked at, and the events and the host's names stay.
#[tactic(auto, using(crate::proofs::Looking::looks_none))]
pub fn turns<D: Daemon + Drop, S: Shelf + Drop>(
    guests: &mut [Guest],
    web: &mut Web<D, S>,
    now: Instant,
    most: Duration,
)
    ensures { OnlyLooks (D.asked (box_value web.old.daemon)) (D.asked (box_value web.new.daemon))
        × (web.new.recent ≡ web.old.recent) × (web.new.names ≡ web.old.names) }
{
    for guest in guests.iter_mut() {
        guest.turn(web, now, most);
    }
}
