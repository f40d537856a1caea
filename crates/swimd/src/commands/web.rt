//! Serving what a daemon answers, over HTTP.

ghost use Rattle.std.specs.Prelude.{◌≡◌, []};
ghost use Rattle.swim_telling.specs.Notices.{Notices};
ghost use Rattle.swim_outcomes.specs.Details.{Explains};
ghost use Rattle.swimd.specs.Served.{ServesWeb};

use mio::net::TcpListener;
use std::alloc::Global;
use std::fs::File;
use std::io;
use std::net::{Ipv4Addr, Net, SocketAddr, SocketAddrV4};
use std::random::RandomSource;
use std::rt::{Clock, Files};
use std::sync::Wait;
use swim_commands::WebRequest;
use swim_config::ConfigFault;
use swim_outcomes::{Details, Outcome, words_why};
use swim_pages::{FileShelf, SocketDaemon, SocketEvents, web_over};
use swim_reports::Notice;
use swim_text::Sink;
use swim_web::run;
use swim_wire::Peer;

/// The first octet of the addresses that only this machine reaches.
const LOOPBACK: u8 = 127;

/// Serves pages for good, unless the address can't be listened on or the system refuses something. Whatever comes in,
/// the daemon is only asked for its table and its counts.
#[tactic(auto, using(swim_telling::specs::Notices::no_notices, crate::proofs::Explained::nothing_explains))]
pub fn serve_web<R: Files<File = File> + Net + Clock + RandomSource + Wait, F: Sink>(
    rt: &R,
    alloc: Global,
    request: &WebRequest<'_>,
    faults: &mut F,
    details: &mut Details,
) -> Outcome
    requires { details.old ≡ [] }
    ensures serves { ServesWeb (F.written faults.old, F.failures faults.old)
        (F.written faults.new, F.failures faults.new) result }
    ensures explains { Explains result details.new }
{
    let mut listener = match listen(rt, request.listen) {
        Ok(listener) => listener,
        Err(fault) => {
            details.add_of(request.listen.write().as_str(), words_why(&fault));
            return Outcome::NoWeb;
        }
    };
    let Ok(daemon) = SocketDaemon::of(rt, request.control) else {
        return Outcome::WebOver;
    };
    let shelf = FileShelf::of(rt, alloc, request.journals);
    let Ok(mut web) = web_over(alloc, request, daemon, shelf) else {
        return Outcome::Refused(ConfigFault::NoMemory);
    };
    announce(rt, alloc, request, faults);
    let mut events = SocketEvents::of(rt, alloc, request.events);
    match run(rt, alloc, &mut listener, &mut web, &mut events) {
        Ok(()) | Err(_) => Outcome::WebOver,
    }
}

/// Listens at an address.
fn listen<R: Net>(rt: &R, peer: Peer) -> io::Result<TcpListener> {
    let address = SocketAddrV4::new(Ipv4Addr::from_octets(peer.ip), peer.port);
    TcpListener::bind(rt, SocketAddr::V4(address))
}

/// Tells where pages are served, and warns if others than this machine may reach them, or the folder of journal files
/// can't be read.
fn announce<R: Files + Net + Clock, F: Sink>(
    rt: &R,
    alloc: Global,
    request: &WebRequest<'_>,
    faults: &mut F,
)
    ensures { Notices (F.written faults.old, F.failures faults.old)
        (F.written faults.new, F.failures faults.new) }
{
    tell_serving(rt, alloc, request.listen, faults);
    warn_open(rt, alloc, request.listen, faults);
    warn_unreadable(rt, alloc, request.journals, faults);
}

/// Tells where pages are served.
#[tactic(auto, using(swim_telling::specs::Notices::no_notices))]
fn tell_serving<R: Net + Clock, F: Sink>(rt: &R, alloc: Global, listen: Peer, faults: &mut F)
    ensures { Notices (F.written faults.old, F.failures faults.old)
        (F.written faults.new, F.failures faults.new) }
{
    Notice::serves(rt, listen).tell_notice(rt, alloc, faults);
}

/// Warns if others than this machine may reach them.
#[tactic(auto, using(swim_telling::specs::Notices::no_notices))]
fn warn_open<R: Net + Clock, F: Sink>(rt: &R, alloc: Global, listen: Peer, faults: &mut F)
    ensures { Notices (F.written faults.old, F.failures faults.old)
        (F.written faults.new, F.failures faults.new) }
{
    if listen.ip[0] != LOOPBACK {
        Notice::is_open(rt, listen).tell_notice(rt, alloc, faults);
    }
}

/// Warns if there is a folder of journal files that can't be read. It may be there later.
#[tactic(auto, using(swim_telling::specs::Notices::no_notices))]
fn warn_unreadable<R: Files + Net + Clock, F: Sink>(
    rt: &R,
    alloc: Global,
    journals: Option<&str>,
    faults: &mut F,
)
    ensures { Notices (F.written faults.old, F.failures faults.old)
        (F.written faults.new, F.failures faults.new) }
{
    let Some(dir) = journals else {
        return;
    };
    if let Err(fault) = rt.open_dir(dir) {
        Notice::is_unreadable(rt, dir, words_why(&fault)).tell_notice(rt, alloc, faults);
    }
}
