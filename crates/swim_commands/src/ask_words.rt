//! The words of `ask`.

ghost use Rattle.std.specs.Prelude.{◌≡◌, codes, false, map, option_map, IfOk};
ghost use Rattle.std.specs.List.{list_any};
ghost use Rattle.clap.specs.Matches.{found_of};
ghost use Rattle.clap.specs.Simple.{app_of};
ghost use Rattle.clap.specs.Walk.{rows_of, rule_of};
ghost use Rattle.clap.specs.declared.builder.command.Command.TheViews.{out-Command};
ghost use Rattle.swim_text.specs.Lines.{has_feed};
ghost use Rattle.swim_commands.specs.Words.{ask_app, form_in, line_in, line_of, option_rule, seconds_in, suits};
ghost use Rattle.swim_commands.specs.Words.{words_rule};

use crate::control_lines::{ControlLine, line_of};
use crate::forms::Form;
use crate::options::{flag, is_set, valued};
use clap::{Arg, ArgAction, ArgMatches, Command};
use std::alloc::{AllocError, Global};
use swim_text::read_number;

/// How many seconds an answer may take where no word says so.
const USUAL_SECONDS: u64 = 5;

/// How many seconds an answer may take at most.
const MOST_SECONDS: u64 = 86_400;

/// What a daemon is asked.
#[derive(Drop)]
pub struct Request<'a> {
    /// The path of its control socket.
    pub path: &'a str,
    /// The one line that it is asked; `None` for those on standard input.
    pub line: Option<ControlLine>,
    /// How many seconds an answer may take, 1 to 86400.
    pub seconds: u64,
    /// How its answers are written.
    pub form: Form,
}

/// The command that asks a daemon.
pub fn ask_command<'a>(alloc: Global) -> Result<Command<'a>, AllocError>
    ensures app { IfOk result (λ made. app_of made ≡ ask_app) }
    ensures local { IfOk result (λ made. (out-Command made).has_globals ≡ false) }
{
    Command::new(alloc, "ask")
        .about("Asks a daemon that runs, and writes its answers")
        .arg(valued(
            alloc,
            "control",
            "PATH",
            "The path of its control socket; without it SWIMD_CONTROL, or /run/swimd/control",
        ))?
        .arg(timeout(alloc))?
        .arg(flag(
            alloc,
            "explain",
            "Writes the name of what an answer tells by its number, as a terminal gets it",
        ))?
        .arg(flag(
            alloc,
            "toml",
            "Writes the answer to list as [[member]] tables for a configuration",
        ))?
        .arg(line_words(alloc))
}

/// How long an answer may take.
fn timeout<'a>(alloc: Global) -> Arg<'a>
    ensures rule { rule_of result ≡ option_rule (codes "timeout") }
    ensures local { result.global ≡ false }
{
    valued(
        alloc,
        "timeout",
        "SECONDS",
        "How long an answer may take, 1 to 86400; 5 where it is left out",
    )
}

/// The words of a line.
fn line_words<'a>(alloc: Global) -> Arg<'a>
    ensures rule { rule_of result ≡ words_rule (codes "WORDS") }
    ensures local { result.global ≡ false }
{
    Arg::new(alloc, "WORDS").action(ArgAction::Append).help(
        "The words of one line, as list; without them the lines of standard input are asked",
    )
}

/// Whether answers to this line are written in that form: tables are made of a list alone.
pub fn suits(form: Form, line: &Option<ControlLine>) -> bool
    ensures { result ≡ suits form (option_map (λ line. line.items) line.now) }
{
    match form {
        Form::Tables => match line {
            Some(line) => line.as_slice() == b"list\n".as_slice(),
            None => false,
        },
        Form::Plain | Form::Explained => true,
    }
}

/// How answers are written, where a terminal may get them.
pub fn form_in(given: &ArgMatches<'_>, is_shown: bool) -> Form
    ensures { result ≡ form_in is_shown (rows_of (found_of given.now)) }
{
    if is_set(given, "toml") {
        Form::Tables
    } else if is_set(given, "explain") || is_shown {
        Form::Explained
    } else {
        Form::Plain
    }
}

/// The line that the words make, `Some(None)` where there are none. Of words with a line feed no line is made, since
/// they would be several.
#[tactic(auto, using(crate::proofs::Given::all_given))]
pub fn line_in(given: &ArgMatches<'_>) -> Option<Option<ControlLine>>
    ensures { option_map (option_map (λ line. line.items)) result ≡ line_in (rows_of (found_of given.now)) }
{
    match given.get_raw("WORDS") {
        None => Some(None),
        Some(words) => line_made_of(words),
    }
}

/// The line that these words make, if they make one.
fn line_made_of(words: &[&str]) -> Option<Option<ControlLine>>
    ensures { option_map (option_map (λ line. line.items)) result ≡ line_of (map (λ word. word.now) words.now) }
{
    if have_feed(words) {
        return None;
    }
    Some(Some(line_of(words)))
}

/// Whether one of these words has a line feed.
pub fn have_feed(words: &[&str]) -> bool
    ensures { result ≡ list_any has_feed (map (λ word. word.now) words.now) }
{
    for word in words {
        if has_feed(word.as_bytes()) {
            return true;
        }
    }
    false
}

/// How many seconds an answer may take.
#[tactic(auto, using(crate::proofs::Given::first_given))]
pub fn seconds_in(given: &ArgMatches<'_>) -> Option<u64>
    ensures { result ≡ seconds_in (rows_of (found_of given.now)) }
{
    match given.get_str("timeout") {
        None => Some(USUAL_SECONDS),
        Some(text) => match read_number(text.as_bytes(), MOST_SECONDS) {
            Some(0) => None,
            seconds => seconds,
        },
    }
}

/// Whether a word has a line feed.
pub fn has_feed(word: &[u8]) -> bool
    ensures { result ≡ has_feed word.now }
{
    word.contains(&b'\n')
}
