//! The door at the control socket of a configuration.

ghost use Rattle.std.specs.Prelude.{◌≡◌, [], IfErr, IfOk};
ghost use Rattle.swim_telling.specs.Notices.{Notices};
ghost use Rattle.swimd.specs.Daemon.{IsNoDoor};

use crate::daemon::entrances::{opened, tell_socket};
use std::alloc::Global;
use std::fs::File;
use std::io::ErrorKind;
use std::net::Net;
use std::rt::{Clock, Files};
use swim_config::Config;
use swim_devices::{Place, SystemRemover, UnixDoor};
use swim_outcomes::{Details, Outcome};
use swim_reports::Notice;
use swim_text::Sink;

/// The door at the path of a configuration's control socket, from which a stale socket is removed, or why there is
/// none. It has the mode that the configuration gives it. So many descriptors are kept for others than operators. It
/// wasn't asked yet who comes.
#[tactic(auto, using(swim_telling::specs::Notices::no_notices))]
pub fn open_door<'r, R: Files<File = File> + Net + Clock, F: Sink>(
    rt: &'r R,
    alloc: Global,
    config: &Config,
    others: usize,
    faults: &mut F,
    details: &mut Details,
) -> Result<UnixDoor<&'r R>, Outcome>
    ensures refused { IfErr result IsNoDoor }
    ensures fresh { IfOk result (λ door. door ≡ []) }
    ensures details { IfOk result (λ door. details.new ≡ details.old) }
    ensures notices { Notices (F.written faults.old, F.failures faults.old)
        (F.written faults.new, F.failures faults.new) }
{
    let path = config.control.as_str();
    let mut remover = SystemRemover {};
    let place = Place::take(rt, &mut remover, path);
    if place.is_cleared() {
        Notice::removed(rt, path).tell_notice(rt, alloc, faults);
    }
    let bound = UnixDoor::bind(rt, alloc, rt, path, others);
    match opened(rt, path, config.modes.control, bound) {
        Ok(door) => Ok(door),
        Err(fault) if fault.kind() == ErrorKind::OutOfMemory => Err(Outcome::NoMemory),
        Err(fault) => {
            tell_socket(path, &fault, place.sight(), details);
            Err(Outcome::NoControl)
        }
    }
}
