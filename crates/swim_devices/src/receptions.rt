//! Where connections come in at a Unix socket, and how those are turned away for whom no descriptors are left.

ghost use Rattle.std.specs.Prelude.{◌≡◌, ◌↔◌, ◌⊎◌, ◌-◌, ◌/◌, ◌<◌, Some, IsTrue, min, pos};

use std::alloc::Global;
use std::fs::Permissions;
use std::io::ErrorKind;
use std::net::Net;
use std::os::fd::{AsRawFd, RawFd};
use std::os::unix::fs::PermissionsExt;
use std::os::unix::net::{UnixListener, UnixStream};
use std::rt::Files;
use std::sync::Arc;
use std::{fs, io};

/// How many connections may have come before the socket was its owner's alone: as many as the system lets wait, and
/// more.
const EARLY: u32 = 65_536;

/// The most places. More are never asked for.
const MOST_PLACES: usize = 64;

/// How many descriptors are counted at most that are left: more than all places take, and what is kept.
const MOST_COUNTED: usize = 256;

/// Errors of the system that tell of want: this program, or all of them, have as many descriptors as they may, or there
/// is no memory for a connection.
const ENOMEM: i32 = 12;

const ENFILE: i32 = 23;

const EMFILE: i32 = 24;

const ENOBUFS: i32 = 105;

/// A connection that doesn't wait, with the place that it has as long as this is held.
#[derive(Drop)]
pub(crate) struct Guest {
    pub(crate) stream: UnixStream,
    pub(crate) place: Arc<()>,
}

/// What came to a socket.
#[derive(Drop)]
pub(crate) enum Arrival {
    /// Somebody, who has a place.
    Came(Guest),
    /// Nobody.
    Nobody,
    /// One who was turned away.
    Refused,
    /// The socket is out of order.
    Fault,
}

/// A Unix socket that only its owner may connect to. Its file stays when it is dropped.
///
/// Whoever connects takes descriptors, of which a program has only so many. So there are as many places as there were
/// descriptors for when the socket was bound, beside those that are kept for something else. Who finds no place is
/// closed; one descriptor is there to do that with where the system gives no other.
#[derive(Drop)]
pub(crate) struct Reception {
    listener: UnixListener,
    spare: Option<UnixListener>,
    places: usize,
    // Each who has a place shares this.
    taken: Arc<()>,
}

impl Reception {
    /// A socket bound to this path, at which no file may exist. Each who comes takes so many descriptors, and so many
    /// are kept. Fails where the system refuses it, or can't make it its owner's alone.
    pub(crate) fn bind<R: Files + Net>(
        rt: &R,
        alloc: Global,
        path: &str,
        each: usize,
        kept: usize,
    ) -> io::Result<Reception>
        requires { 0 < each }
    {
        let Ok(taken) = Arc::new(alloc, ()) else {
            return Err(io::Error::from(ErrorKind::OutOfMemory));
        };
        let listener = UnixListener::bind(rt, path)?;
        fs::set_permissions(rt, path, Permissions::from_mode(0o600))?;
        listener.set_nonblocking(true)?;
        turn_away(&listener);
        let spare = listener.try_clone().ok();
        let Some(left) = descriptors_left(alloc, &listener) else {
            return Err(io::Error::from(ErrorKind::OutOfMemory));
        };
        Ok(Reception {
            listener,
            spare,
            places: places(left, each, kept),
            taken,
        })
    }

    /// How many places there are.
    pub(crate) fn places(&self) -> usize {
        self.places
    }

    /// Who came, if anybody did. It waits for nobody.
    pub(crate) fn next(&mut self) -> Arrival {
        match self.listener.accept() {
            Ok((stream, _address)) => self.let_in(stream),
            Err(fault) if is_want(fault.raw_os_error()) => self.refuse(),
            Err(fault) if is_nobody(fault.kind()) => Arrival::Nobody,
            Err(_) => Arrival::Fault,
        }
    }

    /// Who came, where there is a place. Else the connection is closed.
    fn let_in(&self, stream: UnixStream) -> Arrival {
        // One who shares it is this itself.
        if self.places < Arc::strong_count(&self.taken) || stream.set_nonblocking(true).is_err() {
            return Arrival::Refused;
        }
        match Arc::try_clone(&self.taken) {
            Ok(place) => Arrival::Came(Guest { stream, place }),
            Err(_) => Arrival::Refused,
        }
    }

    /// Turns the next one away, by the descriptor that is there for that. Where none was to be had before, one may be
    /// now.
    fn refuse(&mut self) -> Arrival {
        self.spare = None;
        let is_refused = self.listener.accept().is_ok();
        self.spare = self.listener.try_clone().ok();
        if is_refused {
            Arrival::Refused
        } else {
            Arrival::Nobody
        }
    }
}

impl AsRawFd for Reception {
    fn as_raw_fd(&self) -> RawFd {
        self.listener.as_raw_fd()
    }
}

/// How many descriptors are to be had, as far as that is counted. `None` where memory is refused.
fn descriptors_left(alloc: Global, listener: &UnixListener) -> Option<usize> {
    let mut taken = Vec::new(alloc);
    for count in 0..MOST_COUNTED {
        let Ok(descriptor) = listener.try_clone() else {
            return Some(count);
        };
        if taken.push(descriptor).is_err() {
            return None;
        }
    }
    Some(MOST_COUNTED)
}

/// For how many there are places where so many descriptors are left, of which each takes so many and so many are kept.
fn places(left: usize, each: usize, kept: usize) -> usize
    requires { 0 < each }
    ensures { result ≡ min 64 ((left - kept) / each) }
{
    MOST_PLACES.min(left.saturating_sub(kept) / each)
}

/// Closes what connected before only the owner might.
fn turn_away(listener: &UnixListener) {
    for _connection in 0..EARLY {
        if listener.accept().is_err() {
            break;
        }
    }
}

/// Whether an accept that failed so met nobody: who came may be gone again, too.
fn is_nobody(kind: ErrorKind) -> bool
    ensures { IsTrue result ↔ ((kind ≡ ErrorKind.WouldBlock) ⊎ (kind ≡ ErrorKind.Interrupted)
        ⊎ (kind ≡ ErrorKind.ConnectionAborted)) }
{
    matches!(
        kind,
        ErrorKind::WouldBlock | ErrorKind::Interrupted | ErrorKind::ConnectionAborted
    )
}

/// Whether an accept that failed with this error of the system found too few descriptors, or too little memory. That is
/// no fault of a door.
fn is_want(error: Option<i32>) -> bool
    ensures { IsTrue result ↔ ((error ≡ Some (pos 12)) ⊎ (error ≡ Some (pos 23)) ⊎ (error ≡ Some (pos 24))
        ⊎ (error ≡ Some (pos 105))) }
{
    matches!(error, Some(ENOMEM | ENFILE | EMFILE | ENOBUFS))
}
