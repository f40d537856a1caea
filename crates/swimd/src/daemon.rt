//! A daemon: the lives of a configuration over real devices.

pub(crate) mod counted_entrances;
pub(crate) mod crews;
pub(crate) mod doors;
pub(crate) mod entrances;
pub(crate) mod lives;
pub(crate) mod reloading;
pub(crate) mod speakers;

ghost use Rattle.std.specs.Prelude.{◌≡◌, [], Some};
ghost use Rattle.swim_telling.specs.Notices.{Notices};
ghost use Rattle.swimd.specs.Daemon.{Runs, Starts, outcome_of};
ghost use Rattle.swim_outcomes.specs.Details.{Explains};

use crate::daemon::crews::{Shared, leave};
use crate::daemon::doors::open_door;
use crate::daemon::entrances::open_entrance;
use crate::daemon::lives::keep_lives;
use crate::daemon::reloading::{Reloading, rejoin_of};
use arrayvec::ArrayVec;
use jiff::Timestamp;
use std::alloc::Global;
use std::fs::File;
use std::io;
use std::net::Net;
use std::rt::{Clock, Files};
use std::sync::Wait;
use std::thread::Threads;
use swim_checks::{Documents, read_configuration, warn};
use swim_config::{Config, ConfigFault, INPUT_BYTES, JournalFiles};
use swim_crew::{LivesEnd, Terms};
use swim_desk::Door;
use swim_devices::{UdpEndpoint, UnixEntrance};
use swim_guard::RuleBook;
use swim_keeper::LifeKeeper;
use swim_outcomes::{Details, Outcome, words_why};
use swim_reports::{Announcer, Clerk, Counters, Folder, Notice};
use swim_streams::Timely;
use swim_text::Sink;
use swim_wire::Peer;
use swim_work::TidingsBoard;
use swim_writer::MetricsTimes;

/// Which configuration file a daemon is to have, whether it is to be quiet, and who reads the file.
#[derive(Drop)]
pub struct Launch<'p, 'x, X> {
    pub path: &'p str,
    pub is_quiet: bool,
    pub documents: &'x mut X,
}

/// A daemon that is to be started, and the path and the text of its configuration file.
#[derive(Drop)]
struct Planned<'p> {
    config: Config,
    is_quiet: bool,
    path: &'p str,
    text: &'p [u8],
}

/// The sockets of a daemon.
#[derive(Drop)]
struct Sockets<D: Door + Drop, K: Clock + Drop> {
    endpoint: UdpEndpoint,
    door: D,
    entrance: UnixEntrance<K>,
}

/// Runs the daemon of a configuration file, and writes how its lives ended. Once there is a configuration a line waits
/// for its reader only where memory is refused to ask whether it is taken. What stands in the way of a start is told in
/// the details. Among the faults stands what the configuration is warned of, and then, while it runs, notices; where it
/// is quiet, only that a stale socket was removed, and how many lines of lives were left out. Where the group has keys,
/// and the configuration tells no last number, the detector begins behind the clock's. In the log stands where datagrams
/// came from that nobody of the group sent, or more than the fence lets in.
pub fn run<
    R: Files<File = File> + Net + Clock + Threads + Wait + Sync,
    X: Documents,
    W: Timely,
    F: Timely,
    G: Sink + Clerk + Drop,
>(
    rt: &R,
    alloc: Global,
    launch: &mut Launch<'_, '_, X>,
    writer: &mut W,
    faults: &mut F,
    log: G,
    details: &mut Details,
) -> Outcome
    requires { details.old ≡ [] }
    ensures same { launch.new.documents.ghost_name ≡ launch.old.documents.ghost_name }
    ensures runs { Runs launch.old.path.now (X.read launch.old.documents.now) (X.read launch.new.documents.now)
        (W.written writer.old, W.failures writer.old) (W.written writer.new, W.failures writer.new)
        (F.written faults.old, F.failures faults.old) (F.written faults.new, F.failures faults.new) result }
    ensures explains { Explains result details.new }
{
    let mut text = ArrayVec::<u8, INPUT_BYTES>::new();
    match read_configuration(alloc, launch.documents, launch.path, &mut text, details) {
        Ok(config) => {
            writer.hurry();
            faults.hurry();
            warn(&config, faults);
            let planned = Planned {
                config: config.begun_at(milliseconds(rt)),
                is_quiet: launch.is_quiet,
                path: launch.path,
                text: text.as_slice(),
            };
            run_configured(rt, alloc, planned, writer, faults, log, details)
        }
        Err(outcome) => outcome,
    }
}

/// Runs the daemon of a configuration, and tells how many lines of its lives weren't taken.
#[tactic(auto, using(swim_telling::specs::Notices::no_notices, swim_reports::proofs::Noticed::two_noticed))]
fn run_configured<
    'g,
    R: Files<File = File> + Net + Clock + Threads + Wait + Sync,
    W: Timely,
    F: Sink,
    G: Sink + Clerk + Drop,
>(
    rt: &'g R,
    alloc: Global,
    planned: Planned<'g>,
    writer: &mut W,
    faults: &mut F,
    log: G,
    details: &mut Details,
) -> Outcome
    requires { details.old ≡ [] }
    ensures starts { Starts planned.entry.config (W.written writer.old, W.failures writer.old)
        (W.written writer.new, W.failures writer.new) result }
    ensures notices { Notices (F.written faults.old, F.failures faults.old)
        (F.written faults.new, F.failures faults.new) }
    ensures explains { Explains result details.new }
{
    let outcome = start(rt, alloc, planned, writer, faults, log, details);
    tell_left_out(rt, alloc, writer.left_out(), faults);
    outcome
}

/// Tells how many lines of lives standard output didn't take, if it didn't take some.
#[tactic(auto, using(swim_telling::specs::Notices::no_notices))]
fn tell_left_out<R: Net + Clock, F: Sink>(rt: &R, alloc: Global, count: u64, faults: &mut F)
    ensures { Notices (F.written faults.old, F.failures faults.old)
        (F.written faults.new, F.failures faults.new) }
{
    if 0 < count {
        Notice::left_out(rt, count).tell_notice(rt, alloc, faults);
    }
}

/// Opens the gates of a configuration, and lives over them.
#[tactic(auto, using(swim_telling::specs::Notices::no_notices, swim_reports::proofs::Noticed::two_noticed, crate::proofs::Noticed::no_door, crate::proofs::Noticed::no_entrance, crate::proofs::Explained::nothing_explains))]
fn start<
    'g,
    R: Files<File = File> + Net + Clock + Threads + Wait + Sync,
    W: Sink,
    F: Sink,
    G: Sink + Clerk + Drop,
>(
    rt: &'g R,
    alloc: Global,
    planned: Planned<'g>,
    writer: &mut W,
    faults: &mut F,
    log: G,
    details: &mut Details,
) -> Outcome
    requires { details.old ≡ [] }
    ensures starts { Starts planned.entry.config (W.written writer.old, W.failures writer.old)
        (W.written writer.new, W.failures writer.new) result }
    ensures notices { Notices (F.written faults.old, F.failures faults.old)
        (F.written faults.new, F.failures faults.new) }
    ensures explains { Explains result details.new }
{
    let config = &planned.config;
    let endpoint = match UdpEndpoint::bind(rt, config.listen) {
        Ok(endpoint) => endpoint,
        Err(fault) => {
            tell_listen(config.listen, &fault, details);
            return Outcome::NoListen;
        }
    };
    let entrance = match open_entrance(rt, alloc, config, faults, details) {
        Ok(entrance) => entrance,
        Err(outcome) => return outcome,
    };
    let door = match open_door(rt, alloc, config, entrance.descriptors(), faults, details) {
        Ok(door) => door,
        Err(outcome) => return outcome,
    };
    announce(rt, alloc, &planned, faults);
    let sockets = Sockets {
        endpoint,
        door,
        entrance,
    };
    live(rt, alloc, planned, sockets, writer, faults, log)
}

/// Lives over these sockets, and the other gates of a configuration. The door wasn't asked yet who comes.
#[tactic(auto, using(swim_telling::specs::Notices::no_notices))]
fn live<
    'g,
    R: Files<File = File> + Net + Clock + Threads + Wait + Sync,
    W: Sink,
    F: Sink,
    G: Sink + Clerk + Drop,
    D: Door + Drop,
    K: Clock + Drop + Send,
>(
    rt: &'g R,
    alloc: Global,
    planned: Planned<'g>,
    sockets: Sockets<D, K>,
    writer: &mut W,
    faults: &mut F,
    log: G,
) -> Outcome
    requires { D.faults sockets.door ≡ Some [] }
    ensures starts { Starts planned.entry.config (W.written writer.old, W.failures writer.old)
        (W.written writer.new, W.failures writer.new) result }
    ensures notices { Notices (F.written faults.old, F.failures faults.old)
        (F.written faults.new, F.failures faults.new) }
{
    let Sockets {
        endpoint,
        door,
        entrance,
    } = sockets;
    let config = &planned.config;
    let book = RuleBook::new(config.keys.as_slice(), config.fence);
    let board = TidingsBoard::new(config.opening.last(), rejoin_of(config));
    let counters = Counters::new(config);
    let shared = Shared {
        rt,
        alloc,
        endpoint: &endpoint,
        reloading: Reloading {
            path: planned.path,
            started: planned.text,
            book: &book,
            board: &board,
        },
        counters: &counters,
    };
    live_shared(shared, planned, door, entrance, writer, faults, log)
}

/// The same, with what the crew shares.
#[tactic(auto, using(swim_telling::specs::Notices::no_notices))]
fn live_shared<
    'g,
    R: Files<File = File> + Net + Clock + Threads + Wait + Sync,
    W: Sink,
    F: Sink,
    G: Sink + Clerk + Drop,
    D: Door + Drop,
    K: Clock + Drop + Send,
>(
    shared: Shared<'g, R>,
    planned: Planned<'g>,
    door: D,
    entrance: UnixEntrance<K>,
    writer: &'g mut W,
    faults: &'g mut F,
    log: G,
) -> Outcome
    requires { D.faults door ≡ Some [] }
    ensures starts { Starts planned.entry.config (W.written writer.old, W.failures writer.old)
        (W.written writer.new, W.failures writer.new) result }
    ensures notices { Notices (F.written faults.old, F.failures faults.old)
        (F.written faults.new, F.failures faults.new) }
{
    let Planned {
        mut config,
        is_quiet,
        path: _,
        text: _,
    } = planned;
    let (rt, alloc) = (shared.rt, shared.alloc);
    let terms = terms_of(&config);
    let metrics = MetricsTimes::new(config.metrics.take());
    let me = config.opening.me();
    let files = JournalFiles {
        dir: config.files.dir.take(),
        keep: config.files.keep,
        unit: config.files.unit,
    };
    let counters = shared.counters;
    let Ok(mut shelf) = Folder::open(rt, alloc, files, me, seconds(rt), &log, counters) else {
        return Outcome::NoMemory;
    };
    let Ok(crew) = shared.crew(&config, is_quiet, metrics, door, entrance, log) else {
        return Outcome::NoMemory;
    };
    let opening = config.opening;
    let mut herald = Announcer::new(rt, alloc, &counters.bulletin, is_quiet);
    let mut keeper = LifeKeeper {
        writer,
        notices: faults,
        herald: &mut herald,
        shelf: &mut shelf,
        board: shared.reloading.board,
        terms,
    };
    let (end, crew) = keep_lives(rt, alloc, opening, crew, &mut keeper);
    leave(rt, alloc, crew);
    outcome_of(end)
}

/// Tells that a daemon of this configuration listens, unless it is to be quiet.
#[tactic(auto, using(swim_telling::specs::Notices::no_notices))]
fn announce<R: Net + Clock, F: Sink>(rt: &R, alloc: Global, planned: &Planned<'_>, faults: &mut F)
    ensures { Notices (F.written faults.old, F.failures faults.old)
        (F.written faults.new, F.failures faults.new) }
{
    if !planned.is_quiet {
        Notice::listens(rt, &planned.config).tell_notice(rt, alloc, faults);
    }
}

/// Tells why the address can't be listened on.
fn tell_listen(listen: Peer, fault: &io::Error, details: &mut Details) {
    let address = listen.write();
    details.add_of(address.as_str(), words_why(fault));
}

/// The milliseconds since 1970; 0 where the system can't tell them.
fn milliseconds<K: Clock>(clock: &K) -> u64 {
    match Timestamp::now(clock) {
        Ok(time) => u64::try_from(time.as_millisecond()).unwrap_or(0),
        Err(_) => 0,
    }
}

/// The seconds since 1970; 0 where the system can't tell them.
fn seconds<K: Clock>(clock: &K) -> u64 {
    match Timestamp::now(clock) {
        Ok(time) => u64::try_from(time.as_second()).unwrap_or(0),
        Err(_) => 0,
    }
}

/// What stays the same from life to life under a configuration.
fn terms_of(config: &Config) -> Terms
    ensures { result ≡ record { seed = config.now.seed; limit = config.now.journal } }
{
    Terms {
        seed: config.seed,
        limit: config.journal,
    }
}

/// How a daemon ends whose lives ended so.
fn outcome_of(end: LivesEnd) -> Outcome
    ensures { result ≡ outcome_of end }
{
    match end {
        LivesEnd::Stopped => Outcome::Stopped,
        LivesEnd::Socket => Outcome::Socket,
        LivesEnd::NoMemory => Outcome::Refused(ConfigFault::NoMemory),
        LivesEnd::NoPlace => Outcome::NoPlace,
    }
}
