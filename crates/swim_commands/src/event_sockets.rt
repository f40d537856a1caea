//! What a daemon tells at its events' socket, line by line.

ghost use Rattle.std.specs.Prelude.{None};

use arrayvec::ArrayVec;
use std::io::{self, ErrorKind, Read};
use std::net::Net;
use std::os::fd::OwnedFd;
use std::os::unix::net::UnixStream;
use std::rt::Clock;
use std::thread;
use std::time::Duration;
use swim_text::Sink;
use swim_watch::{EventLine, Feed};

/// How long is waited before a daemon that is gone is looked for again, in milliseconds.
const PAUSE_MS: u64 = 200;

/// How many bytes are read at a time.
const READ_BYTES: usize = 4096;

/// What the daemon at a socket tells. Where the connection ends, the next daemon there is heard, once there is one.
#[derive(Drop)]
pub struct EventsSocket<'r, 'p, R: Net + Clock> {
    rt: &'r R,
    path: &'p str,
    stream: Option<UnixStream>,
    // What was read, the last byte first, as far as it wasn't taken.
    unread: ArrayVec<u8, READ_BYTES>,
}

impl<'r, 'p, R: Net + Clock> EventsSocket<'r, 'p, R> {
    /// What the daemon tells at the socket of this path. Fails where nobody listens there.
    pub fn open(rt: &'r R, path: &'p str) -> io::Result<EventsSocket<'r, 'p, R>> {
        let stream = connect(rt, path)?;
        Ok(EventsSocket {
            rt,
            path,
            stream: Some(stream),
            unread: ArrayVec::new(),
        })
    }

    /// The next byte, if the connection has one more.
    fn next_byte(&mut self) -> Option<u8> {
        if self.unread.is_empty() {
            let mut bytes = [0; READ_BYTES];
            let count = read_some(self.stream.as_ref()?, &mut bytes);
            for byte in bytes.iter().take(count).rev() {
                let _is_kept = self.unread.try_push(*byte);
            }
        }
        self.unread.pop()
    }

    /// Waits until a daemon is there again.
    fn connect_again(&mut self) -> bool {
        self.stream = None;
        self.unread.clear();
        for _try in 0..u64::MAX {
            thread::sleep(self.rt, Duration::from_millis(PAUSE_MS));
            if let Ok(stream) = connect(self.rt, self.path) {
                self.stream = Some(stream);
                return true;
            }
        }
        false
    }
}

impl<'r, 'p, R: Net + Clock> Feed for EventsSocket<'r, 'p, R> {
    ghost heard = { λ s. None };

    fn hear<W: Sink>(&mut self, line: &mut EventLine, _writer: &W) -> bool {
        line.clear();
        for _byte in 0..u64::MAX {
            match self.next_byte() {
                Some(b'\n') => return true,
                // A line that is too long is none of a daemon's.
                Some(byte) if line.try_push(byte).is_ok() => {}
                _ => break,
            }
        }
        line.clear();
        let _is_whole = line.try_extend_from_slice(b"again");
        self.connect_again()
    }
}

/// Connects to the socket at a path.
fn connect<R: Net>(rt: &R, path: &str) -> io::Result<UnixStream> {
    let stream = mio::net::UnixStream::connect(rt, path)?;
    let stream = UnixStream::from(OwnedFd::from(stream));
    stream.set_nonblocking(false)?;
    Ok(stream)
}

/// Reads what comes, and waits for it: how many bytes; none at the end of the connection, or where it is broken.
fn read_some(mut stream: &UnixStream, bytes: &mut [u8]) -> usize {
    for _try in 0..u64::MAX {
        match stream.read(bytes) {
            Ok(count) => return count,
            Err(fault) if fault.kind() == ErrorKind::Interrupted => {}
            Err(_) => return 0,
        }
    }
    0
}
