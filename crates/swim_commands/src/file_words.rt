//! The words of `check` and `run`, which take the file of a configuration.

ghost use Rattle.std.specs.Prelude.{◌≡◌, codes, false, option_map, IfOk};
ghost use Rattle.clap.specs.Matches.{found_of};
ghost use Rattle.clap.specs.Simple.{app_of};
ghost use Rattle.clap.specs.Walk.{rows_of, rule_of};
ghost use Rattle.clap.specs.declared.builder.command.Command.TheViews.{out-Command};
ghost use Rattle.swim_commands.specs.Words.{check_app, file_in, only_one, run_app, word_rule};

use crate::options::{flag, valued};
use clap::{Arg, ArgAction, ArgMatches, Command};
use std::alloc::{AllocError, Global};

/// The command that checks a configuration.
pub fn check_command<'a>(alloc: Global) -> Result<Command<'a>, AllocError>
    ensures app { IfOk result (λ made. app_of made ≡ check_app) }
    ensures local { IfOk result (λ made. (out-Command made).has_globals ≡ false) }
{
    Command::new(alloc, "check")
        .about(
            "Checks a configuration, that of standard input without a FILE, and writes what it says",
        )
        .arg(file(alloc))
}

/// The command that runs a daemon.
pub fn run_command<'a>(alloc: Global) -> Result<Command<'a>, AllocError>
    ensures app { IfOk result (λ made. app_of made ≡ run_app) }
    ensures local { IfOk result (λ made. (out-Command made).has_globals ≡ false) }
{
    Command::new(alloc, "run")
        .about("Runs the daemon of a configuration until it is told to stop")
        .arg(file(alloc))?
        .arg(valued(
            alloc,
            "config",
            "FILE",
            "The file of its configuration, in the place of FILE alone",
        ))?
        .arg(flag(
            alloc,
            "quiet",
            "Tells neither starts nor changes on standard error",
        ))
}

/// The word with the file of a configuration.
fn file<'a>(alloc: Global) -> Arg<'a>
    ensures rule { rule_of result ≡ word_rule (codes "FILE") }
    ensures local { result.global ≡ false }
{
    Arg::new(alloc, "FILE")
        .action(ArgAction::Set)
        .help("The file of a configuration")
}

/// The file that is named, alone or behind `--config`; `None` where none is, or both.
#[tactic(auto, using(crate::proofs::Given::first_given))]
pub fn file_in<'a>(given: &ArgMatches<'a>) -> Option<&'a str>
    ensures { option_map (λ file. file.now) result ≡ file_in (rows_of (found_of given.now)) }
{
    only_one(given.get_str("config"), given.get_str("FILE"))
}

/// One of two, where just one is given.
fn only_one<'a>(one: Option<&'a str>, other: Option<&'a str>) -> Option<&'a str>
    ensures { option_map (λ file. file.now) result
        ≡ only_one (option_map (λ file. file.now) one.entry) (option_map (λ file. file.now) other.entry) }
{
    match one {
        None => other,
        Some(_) => match other {
            None => one,
            Some(_) => None,
        },
    }
}
