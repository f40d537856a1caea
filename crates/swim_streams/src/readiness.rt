//! Whether a standard stream takes a line without a wait.

use mio::unix::SourceFd;
use mio::{Events, Interest, Poll, Token};
use std::alloc::Global;
use std::io::{self, ErrorKind};
use std::net::Net;
use std::os::fd::RawFd;
use std::time::Duration;

/// The descriptor of standard output.
pub const STANDARD_OUTPUT: RawFd = 1;

/// The descriptor of standard error.
pub const STANDARD_ERROR: RawFd = 2;

/// How long a look lasts that waits, in milliseconds.
pub const LOOK_MS: u64 = 10;

/// Whether a stream takes a line without a wait, now or within so many looks of 10 milliseconds each. A pipe does that
/// has room, as long as nobody else writes into it; what the system can't say it of, as a file, always does. Where there
/// is no memory to ask with, it counts as taken: a wait is better than a line that is lost.
pub fn is_taken<R: Net>(rt: &R, alloc: Global, descriptor: RawFd, looks: u32) -> bool {
    match has_room(rt, alloc, descriptor, looks) {
        Ok(has_room) => has_room,
        Err(fault) => {
            let kind = fault.kind();
            kind == ErrorKind::PermissionDenied || kind == ErrorKind::OutOfMemory
        }
    }
}

fn has_room<R: Net>(rt: &R, alloc: Global, descriptor: RawFd, looks: u32) -> io::Result<bool> {
    let mut poll = Poll::new(rt)?;
    let mut events = Events::with_capacity(alloc, 1)?;
    poll.registry()
        .register(&mut SourceFd(&descriptor), Token(0), Interest::WRITABLE)?;
    poll.poll(&mut events, Some(Duration::ZERO))?;
    for _look in 0..looks {
        if !events.is_empty() {
            return Ok(true);
        }
        // A signal ends a look early.
        poll.poll(&mut events, Some(Duration::from_millis(LOOK_MS)))?;
    }
    Ok(!events.is_empty())
}
