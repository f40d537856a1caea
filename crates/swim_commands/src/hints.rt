//! What a person needs below `usage`: which word wasn't understood, the nearest one, and a line that works.

ghost use Rattle.std.specs.Prelude.{◌≡◌};

use crate::ask_words::{line_in, seconds_in};
use crate::options::path_in;
use crate::surroundings::Surroundings;
use crate::web_words::folder_in;
use crate::words::program;
use clap::ArgMatches;
use std::alloc::Global;
use swim_outcomes::{Details, Outcome};

/// How many lines are told of what `clap` says. However long they are, there is room for one more behind them.
const MOST_LINES: u32 = 4;

/// What stands before a line that works.
const WORKS: &str = "a line that works";

/// The outcome of words that ask nothing in these surroundings. What is wrong with them is told in the details, and a
/// line that works.
pub fn explain_words<'a>(
    alloc: Global,
    words: &'a [&'a str],
    around: Surroundings<'a>,
    details: &mut Details,
) -> Outcome
    ensures { result ≡ Outcome.Usage }
{
    add_fault(alloc, words, around, details);
    details.add_of(WORKS, line_that_works(words));
    Outcome::Usage
}

/// The same of words of which one is no UTF-8.
pub fn explain_no_text(details: &mut Details) -> Outcome
    ensures { result ≡ Outcome.Usage }
{
    details.add("a word is no text in UTF-8");
    details.add_of(WORKS, line_that_works(&[]));
    Outcome::Usage
}

/// Adds what `clap` says of the words, which names the one that it didn't understand and the nearest; nothing where
/// memory is refused.
fn add_fault<'a>(
    alloc: Global,
    words: &'a [&'a str],
    around: Surroundings<'a>,
    details: &mut Details,
) {
    let Ok(program) = program(alloc) else {
        return;
    };
    match program.try_get_matches_from(words) {
        Ok(matches) => details.add(words_of_range(&matches, around)),
        Err(error) => {
            if let Ok(text) = format!(in alloc; "{error}") {
                add_lines(text.as_str(), details);
            }
        }
    }
}

/// Adds the first lines of a text in which something stands.
fn add_lines(text: &str, details: &mut Details) {
    let mut left = MOST_LINES;
    for line in text.lines() {
        let words = line.trim();
        if 0 < left && !words.is_empty() {
            details.add(words);
            left -= 1;
        }
    }
}

/// What is wrong with words that `clap` takes.
fn words_of_range<'a>(matches: &ArgMatches<'a>, around: Surroundings<'a>) -> &'static str {
    match matches.subcommand() {
        Some(("web", given)) => words_of_page(given),
        Some(("ask", given)) => words_of_request(given, around),
        Some(("watch", _)) => "SWIMD_EVENTS is no text in UTF-8; --events <PATH> takes its place",
        _ => "run takes one FILE, as the last word or as --config <FILE>",
    }
}

/// What is wrong with the words of `web`.
fn words_of_page(given: &ArgMatches<'_>) -> &'static str {
    if folder_in(given).is_none() {
        "--journals takes a folder whose path has at most 100 bytes"
    } else {
        "--listen takes an address, as 127.0.0.1:8946, and --name stands there eight times at most"
    }
}

/// What is wrong with the words of `ask`.
fn words_of_request<'a>(given: &ArgMatches<'a>, around: Surroundings<'a>) -> &'static str {
    if line_in(given).is_none() {
        "a word has a line feed, which would make two lines of one"
    } else if seconds_in(given).is_none() {
        "--timeout takes a number of seconds, 1 to 86400"
    } else if path_in(given, "control", around.control).is_none() {
        "SWIMD_CONTROL is no text in UTF-8; --control <PATH> takes its place"
    } else {
        "--toml writes the answer to one line, list"
    }
}

/// A line that works, of the command that is named first.
fn line_that_works(words: &[&str]) -> &'static str {
    let first = first_of(words);
    if first == "check" {
        "swimd check < FILE"
    } else if first == "run" {
        "swimd run --config FILE"
    } else if first == "ask" {
        "swimd ask --control PATH list"
    } else if first == "watch" {
        "swimd watch --events PATH"
    } else if first == "web" {
        "swimd web --listen 127.0.0.1:8946 --control PATH"
    } else if first == "key" {
        "swimd key"
    } else {
        "swimd --help"
    }
}

/// The first word; an empty one where there is none.
fn first_of<'a>(words: &[&'a str]) -> &'a str {
    match words.first() {
        Some(word) => *word,
        None => "",
    }
}
