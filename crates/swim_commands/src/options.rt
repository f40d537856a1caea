//! Options of the program's commands.

ghost use Rattle.std.specs.Prelude.{◌≡◌, false, option_map};
ghost use Rattle.clap.specs.Matches.{found_of};
ghost use Rattle.clap.specs.Walk.{rows_of, rule_of};
ghost use Rattle.swim_commands.specs.Words.{flag_of, flag_rule, needed_rule, option_rule, path_in};

use clap::{Arg, ArgAction, ArgMatches};
use std::alloc::Global;

/// An option that has to be given.
pub fn needed<'a>(alloc: Global, name: &'a str, value: &'a str, help: &'a str) -> Arg<'a>
    ensures rule { rule_of result ≡ needed_rule name.entry.now }
    ensures local { result.global ≡ false }
{
    valued(alloc, name, value, help).required(true)
}

/// An option with a value.
pub fn valued<'a>(alloc: Global, name: &'a str, value: &'a str, help: &'a str) -> Arg<'a>
    ensures rule { rule_of result ≡ option_rule name.entry.now }
    ensures local { result.global ≡ false }
{
    Arg::new(alloc, name)
        .long(name)
        .value_name(value)
        .action(ArgAction::Set)
        .help(help)
}

/// An option without a value.
pub fn flag<'a>(alloc: Global, name: &'a str, help: &'a str) -> Arg<'a>
    ensures rule { rule_of result ≡ flag_rule name.entry.now }
    ensures local { result.global ≡ false }
{
    Arg::new(alloc, name)
        .long(name)
        .action(ArgAction::SetTrue)
        .help(help)
}

/// The path behind an option, or the usual one where it is left out.
#[tactic(auto, using(crate::proofs::Given::first_given))]
pub fn path_in<'a>(given: &ArgMatches<'a>, name: &str, usual: Option<&'a str>) -> Option<&'a str>
    ensures { option_map (λ path. path.now) result
        ≡ path_in name.now (option_map (λ path. path.now) usual.entry) (rows_of (found_of given.now)) }
{
    match given.get_str(name) {
        Some(path) => Some(path),
        None => usual,
    }
}

/// Whether a word of that name was given.
#[tactic(auto, using(crate::proofs::Given::first_given))]
pub fn is_set(given: &ArgMatches<'_>, name: &str) -> bool
    ensures { result ≡ flag_of name.now (rows_of (found_of given.now)) }
{
    match given.get_str(name) {
        Some(text) => text == "true",
        None => false,
    }
}
