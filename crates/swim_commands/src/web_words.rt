//! The words of `web`.

ghost use Rattle.std.specs.Prelude.{◌≡◌, codes, false, map, option_map, IfOk};
ghost use Rattle.clap.specs.Matches.{found_of};
ghost use Rattle.clap.specs.Simple.{app_of};
ghost use Rattle.clap.specs.Walk.{rows_of, rule_of};
ghost use Rattle.clap.specs.declared.builder.command.Command.TheViews.{out-Command};
ghost use Rattle.swim_commands.specs.Words.{folder_in, folder_of, names_in, names_of, option_rule, repeated_rule};
ghost use Rattle.swim_commands.specs.Words.{wanted, web_app, web_in};

use crate::options::{needed, valued};
use crate::words::Asked;
use arrayvec::ArrayVec;
use clap::{Arg, ArgAction, ArgMatches, Command};
use std::alloc::{AllocError, Global};
use swim_config::PATH_BYTES;
use swim_wire::Peer;

/// How many names of its host may be given.
const MOST_NAMES: usize = 8;

/// Names of a host.
pub type HostNames<'a> = ArrayVec<&'a str, MOST_NAMES>;

/// What is served, and where.
#[derive(Drop)]
pub struct WebRequest<'a> {
    /// The address at which it listens.
    pub listen: Peer,
    /// The path of the control socket of the daemon that is asked.
    pub control: &'a str,
    /// The path of its events' socket, if changes are passed on.
    pub events: Option<&'a str>,
    /// The folder of its journal files, if verdicts are shown.
    pub journals: Option<&'a str>,
    /// Further names by which a request may call the host.
    pub names: HostNames<'a>,
}

/// The command that serves what a daemon answers.
pub(crate) fn web_command<'a>(alloc: Global) -> Result<Command<'a>, AllocError>
    ensures app { IfOk result (λ made. app_of made ≡ web_app) }
    ensures local { IfOk result (λ made. (out-Command made).has_globals ≡ false) }
{
    Command::new(alloc, "web")
        .about(
            "Serves a page with the member table of a daemon that runs, and its metrics, over HTTP",
        )
        .arg(needed(
            alloc,
            "listen",
            "ADDRESS",
            "Where it listens, as 127.0.0.1:8946",
        ))?
        .arg(needed(
            alloc,
            "control",
            "PATH",
            "The path of the daemon's control socket",
        ))?
        .arg(events(alloc))?
        .arg(names(alloc))?
        .arg(journals(alloc))
}

/// The option with the path of the events' socket.
fn events<'a>(alloc: Global) -> Arg<'a>
    ensures rule { rule_of result ≡ option_rule (codes "events") }
    ensures local { result.global ≡ false }
{
    valued(
        alloc,
        "events",
        "PATH",
        "The path of the daemon's events' socket, whose changes are passed on",
    )
}

/// The option with the folder of journal files.
fn journals<'a>(alloc: Global) -> Arg<'a>
    ensures rule { rule_of result ≡ option_rule (codes "journals") }
    ensures local { result.global ≡ false }
{
    valued(
        alloc,
        "journals",
        "DIR",
        "The folder of the daemon's journal files, by which its verdicts are explained",
    )
}

/// The option with a name of the host.
fn names<'a>(alloc: Global) -> Arg<'a>
    ensures rule { rule_of result ≡ repeated_rule (codes "name") }
    ensures local { result.global ≡ false }
{
    Arg::new(alloc, "name")
        .long("name")
        .value_name("HOST")
        .action(ArgAction::Append)
        .help("A further name of this host, as browsers send it; up to eight of them")
}

/// What the options of `web` ask.
#[tactic(auto, using(crate::proofs::Given::first_given))]
pub(crate) fn web_in<'a>(given: &ArgMatches<'a>) -> Option<Asked<'a>>
    ensures { option_map wanted result ≡ web_in (rows_of (found_of given.now)) }
{
    let listen = given.get_str("listen")?;
    let listen = Peer::read(listen.as_bytes())?;
    let control = given.get_str("control")?;
    let names = names_in(given)?;
    let journals = folder_in(given)?;
    let events = given.get_str("events");
    Some(Asked::Web(WebRequest {
        listen,
        control,
        events,
        journals,
        names,
    }))
}

/// The folder of journal files, if one was given; `None` where its path is too long.
#[tactic(auto, using(crate::proofs::Given::first_given))]
pub(crate) fn folder_in<'a>(given: &ArgMatches<'a>) -> Option<Option<&'a str>>
    ensures { option_map (λ dir. option_map (λ path. path.now) dir) result ≡ folder_in (rows_of (found_of given.now)) }
{
    match given.get_str("journals") {
        None => Some(None),
        Some(path) => folder_of(path),
    }
}

/// The folder with this path, if that isn't too long.
fn folder_of<'a>(path: &'a str) -> Option<Option<&'a str>>
    ensures { option_map (λ dir. option_map (λ path. path.now) dir) result ≡ folder_of path.entry.now }
{
    if path.len() <= PATH_BYTES {
        Some(Some(path))
    } else {
        None
    }
}

/// The names that were given; `None` where they are too many.
#[tactic(auto, using(crate::proofs::Given::all_given))]
fn names_in<'a>(given: &ArgMatches<'a>) -> Option<HostNames<'a>>
    ensures { option_map (λ names. map (λ name. name.now) names.items) result ≡ names_in (rows_of (found_of given.now)) }
{
    match given.get_raw("name") {
        None => Some(HostNames::new()),
        Some(names) => names_of(names),
    }
}

/// These names, if they aren't too many.
fn names_of<'a>(names: &[&'a str]) -> Option<HostNames<'a>>
    ensures { option_map (λ names. map (λ name. name.now) names.items) result
        ≡ names_of (map (λ name. name.now) names.now) }
{
    let mut kept = HostNames::new();
    match kept.try_extend_from_slice(names) {
        Ok(()) => Some(kept),
        Err(_) => None,
    }
}
