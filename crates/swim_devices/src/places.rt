//! The place of a control socket: what stands at its path, and whether that may be removed.

ghost use Rattle.std.specs.Prelude.{◌≡◌, ◌↔◌, ◌∷◌, [], None, true};
ghost use Rattle.swim_devices.specs.Places.{Clears, Removes, sight_of};
ghost use Rattle.swim_trail.specs.Growing.{Grows};

use mio::net::UnixStream;
use std::fs::{File, TryLockError};
use std::io::ErrorKind;
use std::marker::Model;
use std::net::Net;
use std::os::unix::fs::FileTypeExt;
use std::rt::{Clock, Files};
use std::time::Duration;
use std::{fs, thread};

/// How often the lock of a folder is asked for, and how long is waited between two of these, in milliseconds.
const TRIES: u32 = 100;

const PAUSE_MS: u64 = 10;

/// What stands at a path. No link is followed.
#[derive(Clone, Copy)]
pub enum Found {
    /// Nothing.
    Nothing,
    /// A socket.
    Socket,
    /// Something else: a file, a folder, a link.
    Other,
    /// The system doesn't tell.
    Unknown,
}

/// Whom a connection to a path met.
#[derive(Clone, Copy)]
pub enum Presence {
    /// Somebody who listens there, also where too many wait already.
    Somebody,
    /// Nobody: the system refused the connection.
    Nobody,
    /// It can't be told: the connection failed otherwise.
    Unknown,
}

/// What removes a socket.
pub trait Remover {
    ghost use Rattle.std.specs.Prelude.{ℕ, List, Option};

    // the paths at which it was told to remove what stands there, oldest first; where they are known
    ghost removed: { Self → Option (List (List ℕ)) };

    /// Removes what stands at a path. `false` where that failed.
    fn remove<R: Files>(&mut self, rt: &R, path: &str) -> bool
        ensures { Grows (removed self.old) (removed self.new) (path.now ∷ []) };
}

/// The system removes.
#[derive(Drop)]
pub struct SystemRemover {}

impl Remover for SystemRemover {
    ghost removed = { λ r. None };

    fn remove<R: Files>(&mut self, rt: &R, path: &str) -> bool {
        fs::remove_file(rt, path).is_ok()
    }
}

/// What is known of a path.
#[derive(Clone, Copy, Debug, PartialEq, Eq)]
pub enum Sight {
    /// Nothing stands there.
    Free,
    /// A socket stands there, and nobody answers.
    Stale,
    /// A socket stands there, and somebody answers.
    Served,
    /// What stands there is no socket.
    NoSocket,
    /// It can't be told.
    Unclear,
}

/// A path at which a socket is to be bound, as it was found. While this is held, no other daemon of this machine
/// removes what stands in the same folder.
#[derive(Drop)]
pub struct Place {
    sight: Sight,
    is_cleared: bool,
    lock: Option<File>,
}

impl Model for Place {
    ghost use Rattle.std.specs.Prelude.{is_some};
    ghost use Rattle.swim_devices.specs.Places.{Seen};

    ghost Value = { Seen };

    ghost view = { λ p. record { sight = p.sight; is_locked = is_some p.lock; is_cleared = p.is_cleared } };
}

impl Place {
    /// Takes a path, and removes what stands there if it is a stale socket. That is done under a lock of its folder, so
    /// that no other daemon binds a socket there between the look and the removal. Without the lock, as where the
    /// folder can't be read or somebody else has it for a second, nothing is removed. Whatever else stands there stays,
    /// and so does all that stands elsewhere.
    pub fn take<R: Files<File = File> + Net + Clock, E: Remover>(
        rt: &R,
        remover: &mut E,
        path: &str,
    ) -> Place
        ensures { Removes path.now (E.removed remover.old) (E.removed remover.new) result }
    {
        let lock = lock_of(rt, folder_of(path));
        let sight = look(rt, path);
        let is_cleared = clear(rt, remover, path, sight, lock.is_some());
        Place {
            sight,
            is_cleared,
            lock,
        }
    }

    /// What was found there.
    pub fn sight(&self) -> Sight
        ensures { result ≡ self.now.sight }
    {
        self.sight
    }

    /// Whether a stale socket was removed.
    pub fn is_cleared(&self) -> bool
        ensures { result ≡ self.now.is_cleared }
    {
        self.is_cleared
    }
}

/// The folder of a path.
fn folder_of(path: &str) -> &str {
    match path.rsplit_once('/') {
        None => ".",
        Some(("", _name)) => "/",
        Some((folder, _name)) => folder,
    }
}

/// The lock of a folder, which is given back where it is dropped. `None` where it isn't to be had.
fn lock_of<R: Files<File = File> + Clock>(rt: &R, folder: &str) -> Option<File> {
    let folder = fs::open(rt, folder).ok()?;
    for _try in 0..TRIES {
        match folder.try_lock() {
            Ok(()) => return Some(folder),
            Err(TryLockError::WouldBlock) => thread::sleep(rt, Duration::from_millis(PAUSE_MS)),
            Err(TryLockError::Error(_)) => return None,
        }
    }
    None
}

/// What is known of a path. Where a socket stands there, it is connected to.
fn look<R: Files + Net>(rt: &R, path: &str) -> Sight {
    match found_at(rt, path) {
        Found::Socket => sight_of(Found::Socket, met_at(rt, path)),
        found => sight_of(found, Presence::Unknown),
    }
}

fn found_at<R: Files>(rt: &R, path: &str) -> Found {
    match fs::symlink_metadata(rt, path) {
        Ok(metadata) if metadata.file_type().is_socket() => Found::Socket,
        Ok(_) => Found::Other,
        Err(fault) if fault.kind() == ErrorKind::NotFound => Found::Nothing,
        Err(_) => Found::Unknown,
    }
}

fn met_at<R: Net>(rt: &R, path: &str) -> Presence {
    match UnixStream::connect(rt, path) {
        Ok(_) => Presence::Somebody,
        Err(fault) => met_by(fault.kind()),
    }
}

/// Whom a connection met that failed so.
fn met_by(kind: ErrorKind) -> Presence
    ensures { (result ≡ Presence.Nobody) ↔ (kind ≡ ErrorKind.ConnectionRefused) }
{
    match kind {
        ErrorKind::ConnectionRefused => Presence::Nobody,
        ErrorKind::WouldBlock => Presence::Somebody,
        _ => Presence::Unknown,
    }
}

/// What is known of a path at which that was found, and whose socket, if it is one, was connected to so.
pub fn sight_of(found: Found, met: Presence) -> Sight
    ensures exact { result ≡ sight_of found met }
    ensures stale { (result ≡ Sight.Stale) ↔ ((found ≡ Found.Socket) × (met ≡ Presence.Nobody)) }
{
    match (found, met) {
        (Found::Nothing, _) => Sight::Free,
        (Found::Other, _) => Sight::NoSocket,
        (Found::Unknown, _) => Sight::Unclear,
        (Found::Socket, Presence::Somebody) => Sight::Served,
        (Found::Socket, Presence::Nobody) => Sight::Stale,
        (Found::Socket, Presence::Unknown) => Sight::Unclear,
    }
}

/// Removes what was found so at a path, if it is a stale socket and the lock of its folder is held. Whether that was
/// done.
fn clear<R: Files, E: Remover>(
    rt: &R,
    remover: &mut E,
    path: &str,
    sight: Sight,
    is_locked: bool,
) -> bool
    ensures { Clears path.now (E.removed remover.old) (E.removed remover.new) sight is_locked result }
{
    if sight != Sight::Stale || !is_locked {
        return false;
    }
    remover.remove(rt, path)
}
