//! Where those come in who watch a daemon, and what they are told last.

ghost use Rattle.std.specs.Prelude.{◌≡◌, IfErr, IfOk, Ok};
ghost use Rattle.swim_telling.specs.Notices.{Notices};
ghost use Rattle.swimd.specs.Daemon.{IsNoEntrance};

use std::alloc::Global;
use std::fs::{File, Permissions};
use std::net::Net;
use std::os::unix::fs::PermissionsExt;
use std::rt::{Clock, Files};
use std::{fs, io};
use swim_config::{Config, SocketPath};
use swim_devices::{Place, Sight, SystemRemover, UnixEntrance};
use swim_events::{Event, Gallery, Outlet};
use swim_outcomes::{Details, Outcome, words_why};
use swim_reports::Notice;
use swim_text::Sink;

/// How often a life's journal is read, and written to its file, in milliseconds.
const WRITE_MS: u32 = 50;

/// The same where somebody may watch, who is to be told of a verdict within 50 milliseconds.
const WATCHED_MS: u32 = 15;

/// How often the journal is read where events are told there, in milliseconds.
pub fn pause_ms(events: &Option<SocketPath>) -> u32 {
    if events.is_some() {
        WATCHED_MS
    } else {
        WRITE_MS
    }
}

/// The entrance at the path of a configuration's events' socket, from which a stale socket is removed, or why there is
/// none. It has the mode that the configuration gives it. Where no path is given it is closed.
#[tactic(auto, using(swim_telling::specs::Notices::no_notices))]
pub fn open_entrance<'r, R: Files<File = File> + Net + Clock, F: Sink>(
    rt: &'r R,
    alloc: Global,
    config: &Config,
    faults: &mut F,
    details: &mut Details,
) -> Result<UnixEntrance<&'r R>, Outcome>
    ensures refused { IfErr result IsNoEntrance }
    ensures details { IfOk result (λ entrance. details.new ≡ details.old) }
    ensures notices { Notices (F.written faults.old, F.failures faults.old)
        (F.written faults.new, F.failures faults.new) }
{
    let mode = config.modes.events;
    match &config.events {
        None => Ok(UnixEntrance::closed(rt)),
        Some(path) => bind_entrance(rt, alloc, path.as_str(), mode, faults, details),
    }
}

/// The entrance at a path, from which a stale socket is removed, with this mode.
#[tactic(auto, using(swim_telling::specs::Notices::no_notices))]
fn bind_entrance<'r, R: Files<File = File> + Net + Clock, F: Sink>(
    rt: &'r R,
    alloc: Global,
    path: &str,
    mode: Option<u32>,
    faults: &mut F,
    details: &mut Details,
) -> Result<UnixEntrance<&'r R>, Outcome>
    ensures refused { IfErr result IsNoEntrance }
    ensures details { IfOk result (λ entrance. details.new ≡ details.old) }
    ensures notices { Notices (F.written faults.old, F.failures faults.old)
        (F.written faults.new, F.failures faults.new) }
{
    let mut remover = SystemRemover {};
    let place = Place::take(rt, &mut remover, path);
    if place.is_cleared() {
        Notice::removed(rt, path).tell_notice(rt, alloc, faults);
    }
    match opened(rt, path, mode, UnixEntrance::bind(rt, alloc, rt, path)) {
        Ok(entrance) => Ok(entrance),
        Err(fault) => {
            tell_socket(path, &fault, place.sight(), details);
            Err(Outcome::NoEvents)
        }
    }
}

/// What was bound at a path, once its socket has this mode, if one is given. Until then it is its owner's alone.
pub fn opened<R: Files, T: Drop>(
    rt: &R,
    path: &str,
    mode: Option<u32>,
    bound: io::Result<T>,
) -> io::Result<T>
    ensures { IfOk result (λ value. bound ≡ Ok value) }
{
    let bound = bound?;
    if let Some(mode) = mode {
        fs::set_permissions(rt, path, Permissions::from_mode(mode))?;
    }
    Ok(bound)
}

/// Tells why a socket can't be bound at a path, and what stands there.
pub fn tell_socket(path: &str, fault: &io::Error, sight: Sight, details: &mut Details) {
    details.add_of(path, words_why(fault));
    match sight {
        Sight::NoSocket => details.add("what stands there is no socket; it is kept"),
        Sight::Served => details.add("somebody serves this socket; it is kept"),
        Sight::Stale => details.add("nobody serves this socket; remove it"),
        Sight::Free | Sight::Unclear => {}
    }
}

/// Tells all who watch that nothing happens any more, and sends what they take at once, at this time.
pub fn end_watching<E: Outlet + Drop>(gallery: &mut Gallery<E>, time: u64) {
    gallery.tell(&Event::Ended);
    gallery.send(time);
}
