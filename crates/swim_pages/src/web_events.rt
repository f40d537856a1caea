//! What `web` hears of a daemon at its events' socket, without waiting.

ghost use Rattle.std.specs.Prelude.{◌≡◌, None, if◌then◌else◌};
ghost use Rattle.std.specs.IoError.{error_kind};
ghost use Rattle.swim_pages.specs.Streams.{is_due, is_lasting};

use arrayvec::ArrayVec;
use jiff::Timestamp;
use mio::net::UnixStream;
use std::alloc::{AllocError, Global};
use std::io::{self, ErrorKind, Read};
use std::net::Net;
use std::rt::Clock;
use std::time::Instant;
use swim_watch::show;
use swim_web::{EventLine, Teller};

/// How long after one try to connect the next one is, in nanoseconds.
const PAUSE_NS: u128 = 500_000_000;

/// How many bytes are read at a time.
const READ_BYTES: usize = 1024;

/// How many lines are looked at before others have their turns: more than a table has.
const LINES: usize = 256;

/// The events of the daemon at a socket, each an object of JSON with the time at which it came. The table that comes
/// first isn't told. If the connection is lost, the next daemon there is heard, half a second after the last try at the
/// soonest, and an event tells that one was found again.
#[derive(Drop)]
pub struct SocketEvents<'r, 'p, R: Net + Clock> {
    rt: &'r R,
    alloc: Global,
    // Without a path nothing is heard.
    path: Option<&'p str>,
    stream: Option<UnixStream>,
    tried: Option<Instant>,
    // Whether the table comes, and whether one came before.
    is_table: bool,
    is_again: bool,
    // What was read, the last byte first, as far as it wasn't taken; and the line that has begun.
    unread: ArrayVec<u8, READ_BYTES>,
    part: swim_watch::EventLine,
}

impl<'r, 'p, R: Net + Clock> SocketEvents<'r, 'p, R> {
    /// Returns the events at the socket of this path, if there is one. Nobody has looked for it yet.
    pub fn of(rt: &'r R, alloc: Global, path: Option<&'p str>) -> SocketEvents<'r, 'p, R> {
        SocketEvents {
            rt,
            alloc,
            path,
            stream: None,
            tried: None,
            is_table: false,
            is_again: false,
            unread: ArrayVec::new(),
            part: ArrayVec::new(),
        }
    }

    /// Connects, if that wasn't tried just now.
    fn connect(&mut self, path: &str) -> io::Result<()> {
        let now = Instant::now(self.rt)?;
        if !is_due(self.tried, now) {
            return Err(io::Error::from(ErrorKind::WouldBlock));
        }
        self.tried = Some(now);
        self.unread.clear();
        self.part.clear();
        self.is_table = true;
        self.stream = Some(UnixStream::connect(self.rt, path)?);
        Ok(())
    }

    /// Returns the next byte, if there is one now.
    fn next_byte(&mut self) -> io::Result<u8> {
        if let Some(byte) = self.unread.pop() {
            return Ok(byte);
        }
        let Some(stream) = &self.stream else {
            return Err(io::Error::from(ErrorKind::NotConnected));
        };
        let mut bytes = [0; READ_BYTES];
        let mut reader = stream;
        let count = reader.read(&mut bytes)?;
        for byte in bytes.iter().take(count).rev() {
            let _is_kept = self.unread.try_push(*byte);
        }
        match self.unread.pop() {
            Some(byte) => Ok(byte),
            None => Err(io::Error::from(ErrorKind::UnexpectedEof)),
        }
    }

    /// Reads on to the end of the line that has begun, if it is there now.
    fn end_line(&mut self) -> io::Result<()> {
        for _byte in 0..u64::MAX {
            let byte = self.next_byte()?;
            if byte == b'\n' {
                return Ok(());
            }
            // A line that is too long is none of a daemon's.
            if self.part.try_push(byte).is_err() {
                break;
            }
        }
        Err(io::Error::from(ErrorKind::InvalidData))
    }

    /// Takes the line that has ended. Returns whether it made an event.
    fn take_line(&mut self, event: &mut EventLine) -> bool {
        if self.is_table {
            return self.take_row(event);
        }
        let is_event = self.tell(self.part.as_slice(), event);
        self.part.clear();
        is_event
    }

    /// Takes a line of the table. Returns whether it ends one that comes from the next daemon.
    fn take_row(&mut self, event: &mut EventLine) -> bool {
        let is_end = self.part.as_slice() == b".".as_slice();
        self.part.clear();
        if !is_end {
            return false;
        }
        let is_again = self.is_again;
        self.is_table = false;
        self.is_again = true;
        is_again && self.tell(b"again", event)
    }

    /// Makes an event of a line. Returns whether there was memory for it.
    fn tell(&self, line: &[u8], event: &mut EventLine) -> bool {
        let Ok(time) = self.time() else {
            return false;
        };
        let Ok(object) = show(self.alloc, line, time.as_str()) else {
            return false;
        };
        event.clear();
        event
            .try_extend_from_slice(object.as_str().as_bytes())
            .is_ok()
    }

    /// Returns the time, as RFC 3339 has it; an empty text if the system can't tell it.
    fn time(&self) -> Result<String, AllocError> {
        match Timestamp::now(self.rt) {
            Ok(time) => format!(in self.alloc; "{time:.3}"),
            Err(_) => Ok(String::new(self.alloc)),
        }
    }

    /// Lets go of the stream if this fault is lasting: it is lost, and the next event is looked for by another.
    fn settle(&mut self, fault: io::Error)
        ensures { self.new.stream ≡ (if is_lasting (error_kind fault) then None else self.old.stream) }
    {
        if is_lasting(fault.kind()) {
            self.stream = None;
        }
    }

    /// Looks for the next event. Returns whether there is one; fails where the connection has no more now.
    fn next_event(&mut self, event: &mut EventLine) -> io::Result<bool> {
        let Some(path) = self.path else {
            return Ok(false);
        };
        if self.stream.is_none() {
            self.connect(path)?;
        }
        for _line in 0..LINES {
            self.end_line()?;
            if self.take_line(event) {
                return Ok(true);
            }
        }
        Ok(false)
    }
}

impl<'r, 'p, R: Net + Clock> Teller for SocketEvents<'r, 'p, R> {
    ghost heard = { λ s. None };

    fn hear(&mut self, line: &mut EventLine) -> bool {
        match self.next_event(line) {
            Ok(is_event) => is_event,
            Err(fault) => {
                self.settle(fault);
                false
            }
        }
    }
}

/// Returns whether it is time to connect: nobody has tried yet, or not just now.
fn is_due(tried: Option<Instant>, now: Instant) -> bool
    ensures { result ≡ is_due tried now }
{
    match tried {
        Some(tried) => now.duration_since(tried).as_nanos() >= PAUSE_NS,
        None => true,
    }
}

/// Returns whether a stream is lost by a fault of this kind. It isn't if nothing lies there yet, or a signal came.
fn is_lasting(kind: ErrorKind) -> bool
    ensures { result ≡ is_lasting kind }
{
    match kind {
        ErrorKind::WouldBlock | ErrorKind::Interrupted => false,
        _ => true,
    }
}
