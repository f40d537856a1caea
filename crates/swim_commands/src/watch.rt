//! Watching a daemon that runs.

ghost use Rattle.std.specs.Prelude.{◌≡◌, []};
ghost use Rattle.swim_outcomes.specs.Details.{Explains};
ghost use Rattle.swim_commands.specs.Watched.{WatchesDaemon, watched_so};

use crate::event_sockets::EventsSocket;
use std::alloc::Global;
use std::net::Net;
use std::rt::Clock;
use std::sync::Wait;
use swim_config::ConfigFault;
use swim_outcomes::{Details, Outcome, words_of};
use swim_text::Sink;
use swim_watch::{WatchEnd, watch};

/// Writes what the daemon tells at the socket of that path, and what those tell that come after it there, as it comes
/// or as JSON.
pub fn watch_daemon<R: Net + Clock + Wait, W: Sink>(
    rt: &R,
    alloc: Global,
    path: &str,
    is_json: bool,
    writer: &mut W,
    details: &mut Details,
) -> Outcome
    requires { details.old ≡ [] }
    ensures watches { WatchesDaemon is_json (W.written writer.old) (W.written writer.new) result }
    ensures explains { Explains result details.new }
{
    match EventsSocket::open(rt, path) {
        Ok(mut socket) => outcome_of(watch(rt, alloc, &mut socket, is_json, writer)),
        Err(fault) => {
            details.add_of(path, words_of(fault.kind()));
            Outcome::NoTeller
        }
    }
}

/// How watching ends whose lines ended so.
fn outcome_of(ended: WatchEnd) -> Outcome
    ensures { result ≡ watched_so ended }
{
    match ended {
        WatchEnd::Over => Outcome::NoTeller,
        WatchEnd::Unwritten => Outcome::WatchUnwritten,
        WatchEnd::NoMemory => Outcome::Refused(ConfigFault::NoMemory),
    }
}
