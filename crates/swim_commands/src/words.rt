//! The words after the program's name.

ghost use Rattle.std.specs.Prelude.{◌≡◌, ◌⊎◌, Some, None, codes, false, map, option_map, IfOk, MatchResult};
ghost use Rattle.clap.specs.Matches.{found_of};
ghost use Rattle.clap.specs.Simple.{app_of, new_app, subcommand_rows_of};
ghost use Rattle.clap.specs.Values.{kind_of};
ghost use Rattle.clap.specs.Walk.{rows_of};
ghost use Rattle.clap.specs.declared.builder.command.Command.TheViews.{out-Command};
ghost use Rattle.swim_commands.specs.Words.{IsAsked, answer_to, around_of, asked_as, asked_in, check_in, program};
ghost use Rattle.swim_commands.specs.Words.{program_alone, request_in, run_in, unasked_by, wanted, watch_app, watch_in};

use crate::ask_words::{Request, ask_command, form_in, line_in, seconds_in, suits};
use crate::control_lines::ControlLine;
use crate::file_words::{check_command, file_in, run_command};
use crate::forms::Form;
use crate::options::{flag, is_set, path_in, valued};
use crate::surroundings::Surroundings;
use crate::web_words::{WebRequest, web_command, web_in};
use clap::error::ErrorKind;
use clap::{ArgMatches, Command, Error};
use std::alloc::{AllocError, Global};
use swim_outcomes::VERSION;

/// What the words ask.
#[derive(Drop)]
pub enum Asked<'a> {
    /// That the configuration on standard input is checked, and whether people are told that it is waited for.
    Check(bool),
    /// That the configuration in the file of this path is checked.
    CheckFile(&'a str),
    /// That a daemon runs, with the configuration in the file of this path, and whether it tells no starts.
    Run(&'a str, bool),
    /// That a daemon is asked.
    Ask(Request<'a>),
    /// That what the daemon tells at the events' socket of this path is written, and whether as JSON.
    Watch(&'a str, bool),
    /// That what a daemon answers is served over HTTP.
    Web(WebRequest<'a>),
    /// That a key is made.
    MakeKey,
    /// Help: its text.
    Help(String),
    /// The version.
    Version,
}

/// Why the words ask nothing.
#[derive(Clone, Copy)]
pub enum Unasked {
    /// There is no such command.
    Usage,
    /// Memory was refused.
    NoMemory,
}

/// What the words ask in these surroundings: `check`, or no words, a check, of standard input or of a FILE; `run FILE`
/// or `run --config FILE`, with `--quiet` or without; `ask`, with `--control PATH`, `--timeout SECONDS`, `--explain` or
/// `--toml` or without, and the words of a line or none; `watch`, with `--events PATH` or `--json` or without; `web
/// --listen ADDRESS --control PATH`, with `--events PATH` or without, with `--journals DIR` of at most 100 bytes or
/// without, and with `--name HOST` up to eight times; `key`; `--help` and `--version`, alone or behind a command.
pub fn read_words<'a>(
    alloc: Global,
    words: &'a [&'a str],
    around: Surroundings<'a>,
) -> Result<Asked<'a>, Unasked>
    ensures { MatchResult result
        (λ asked. IsAsked (around_of around.entry) (map (λ word. word.now) words.now) (Some (wanted asked)))
        (λ unasked. (unasked ≡ Unasked.NoMemory) ⊎ IsAsked (around_of around.entry) (map (λ word. word.now) words.now) None) }
{
    let Ok(program) = program(alloc) else {
        return Err(Unasked::NoMemory);
    };
    match program.try_get_matches_from(words) {
        Ok(matches) => asked_in(&matches, around).ok_or(Unasked::Usage),
        Err(error) => answered(alloc, &error),
    }
}

/// The program, whose words are those after its name, with its commands.
pub fn program<'a>(alloc: Global) -> Result<Command<'a>, AllocError>
    ensures { IfOk result (λ made. app_of made ≡ program) }
{
    // Each command is made where it is added: what may fail then drops one program, and no commands beside it.
    let alone = program_alone(alloc)?;
    let checking = alone.subcommand(check_command(alloc)?)?;
    let running = checking.subcommand(run_command(alloc)?)?;
    let asking = running.subcommand(ask_command(alloc)?)?;
    let watching = asking.subcommand(watch_command(alloc)?)?;
    let serving = watching.subcommand(web_command(alloc)?)?;
    serving.subcommand(key_command(alloc))
}

/// The program without its commands.
fn program_alone<'a>(alloc: Global) -> Result<Command<'a>, AllocError>
    ensures { IfOk result (λ made. app_of made ≡ program_alone) }
{
    Command::new(alloc, "swimd")
        .about("The SWIM failure detector of one group member; without a command a check")
        .version(VERSION)
        .propagate_version(true)
        .no_binary_name(true)
        .disable_help_subcommand(true)
        .bin_name("swimd")
}

/// The command that writes what a daemon tells.
fn watch_command<'a>(alloc: Global) -> Result<Command<'a>, AllocError>
    ensures app { IfOk result (λ made. app_of made ≡ watch_app) }
    ensures local { IfOk result (λ made. (out-Command made).has_globals ≡ false) }
{
    Command::new(alloc, "watch")
        .about("Writes the member table of a daemon that runs, and each change of it as it happens")
        .arg(valued(
            alloc,
            "events",
            "PATH",
            "The path of its events' socket; without it SWIMD_EVENTS, or /run/swimd/events",
        ))?
        .arg(flag(alloc, "json", "Writes each line as an object of JSON"))
}

/// The command that makes a key.
fn key_command<'a>(alloc: Global) -> Command<'a>
    ensures app { app_of result ≡ new_app (codes "key") }
    ensures local { (out-Command result).has_globals ≡ false }
{
    Command::new(alloc, "key").about(
        "Writes a new key of a group, from the random source of the system",
    )
}

/// What is asked by words that were accepted.
#[tactic(auto, using(crate::proofs::Given::met))]
fn asked_in<'a>(matches: &ArgMatches<'a>, around: Surroundings<'a>) -> Option<Asked<'a>>
    ensures { option_map wanted result ≡ asked_in (around_of around.entry) (subcommand_rows_of matches.now) }
{
    match matches.subcommand() {
        None => Some(Asked::Check(around.is_typed)),
        Some((name, given)) => asked_by(name, given, around),
    }
}

/// What is asked by a command of that name, which was given these options.
fn asked_by<'a>(name: &str, given: &ArgMatches<'a>, around: Surroundings<'a>) -> Option<Asked<'a>>
    ensures { option_map wanted result
        ≡ asked_in (around_of around.entry) (Some (name.now, rows_of (found_of given.now))) }
{
    if name == "run" {
        run_in(given)
    } else if name == "ask" {
        request_in(given, around)
    } else if name == "watch" {
        watch_in(given, around)
    } else if name == "web" {
        web_in(given)
    } else if name == "key" {
        Some(Asked::MakeKey)
    } else {
        Some(check_in(given, around.is_typed))
    }
}

/// What the words of `check` ask, where a terminal may be at standard input.
#[tactic(auto, using(crate::proofs::Given::first_given))]
fn check_in<'a>(given: &ArgMatches<'a>, is_typed: bool) -> Asked<'a>
    ensures { wanted result ≡ check_in is_typed (rows_of (found_of given.now)) }
{
    match given.get_str("FILE") {
        Some(file) => Asked::CheckFile(file),
        None => Asked::Check(is_typed),
    }
}

/// What the words of `run` ask.
fn run_in<'a>(given: &ArgMatches<'a>) -> Option<Asked<'a>>
    ensures { option_map wanted result ≡ run_in (rows_of (found_of given.now)) }
{
    let file = file_in(given)?;
    Some(Asked::Run(file, is_set(given, "quiet")))
}

/// What the options and the words of `ask` ask.
fn request_in<'a>(given: &ArgMatches<'a>, around: Surroundings<'a>) -> Option<Asked<'a>>
    ensures { option_map wanted result ≡ request_in (around_of around.entry) (rows_of (found_of given.now)) }
{
    let path = path_in(given, "control", around.control)?;
    let line = line_in(given)?;
    let seconds = seconds_in(given)?;
    asked_as(path, line, form_in(given, around.is_shown), seconds)
}

/// What is asked, where that form suits the line.
fn asked_as<'a>(
    path: &'a str,
    line: Option<ControlLine>,
    form: Form,
    seconds: u64,
) -> Option<Asked<'a>>
    ensures { option_map wanted result ≡ asked_as path.now (option_map (λ line. line.items) line) form seconds }
{
    if !suits(form, &line) {
        return None;
    }
    Some(Asked::Ask(Request {
        path,
        line,
        seconds,
        form,
    }))
}

/// What the options of `watch` ask.
fn watch_in<'a>(given: &ArgMatches<'a>, around: Surroundings<'a>) -> Option<Asked<'a>>
    ensures { option_map wanted result ≡ watch_in (around_of around.entry) (rows_of (found_of given.now)) }
{
    let path = path_in(given, "events", around.events)?;
    Some(Asked::Watch(path, is_set(given, "json")))
}

/// What is asked by words for which `clap` has an error in the place of matches.
fn answered<'a>(alloc: Global, error: &Error) -> Result<Asked<'a>, Unasked>
    ensures { MatchResult result
        (λ asked. answer_to (kind_of error.now) ≡ Some (wanted asked))
        (λ unasked. (unasked ≡ Unasked.NoMemory)
        ⊎ ((unasked ≡ unasked_by (kind_of error.now)) × (answer_to (kind_of error.now) ≡ None))) }
{
    match error.kind() {
        ErrorKind::DisplayHelp => match format!(in alloc; "{error}") {
            Ok(text) => Ok(Asked::Help(text)),
            Err(_) => Err(Unasked::NoMemory),
        },
        ErrorKind::DisplayVersion => Ok(Asked::Version),
        ErrorKind::OutOfMemory => Err(Unasked::NoMemory),
        _ => Err(Unasked::Usage),
    }
}
