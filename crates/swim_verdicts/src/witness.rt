//! What the lines of a journal file tell beside the run.

ghost use Rattle.std.specs.Prelude.{◌≡◌, ℕ, ◌<◌, ◌^◌, decimal};
ghost use Rattle.swim_verdicts.specs.Verifying.{has_calls};

use crate::comment_times::read_time;
use memchr::memchr;
use std::alloc::{AllocError, Global};
use std::collections::BTreeMap;
use swim_evidence::{Confirmations, Draw, Heading};
use swim_script::{Command, Form, Word, first_word, read_command};
use swim_text::Words;
use swim_timeline::Times;

/// How a journal file ended, as far as it was read.
#[derive(Clone, Copy)]
pub enum FileEnd {
    /// Its end wasn't met.
    Unmet,
    /// Behind a line feed.
    Whole,
    /// In the midst of a line, or of the header's first.
    Cut,
    /// By a line that is longer than any may be.
    Long,
    /// By a first line which says that it is no journal file.
    Foreign,
    /// It can't be read.
    Failed,
}

/// What was told by the lines of a journal file that were carried out. In want of memory times are left out, and `kept`
/// says so.
#[derive(Drop)]
pub struct Witness {
    /// How many lines there were.
    pub lines: u32,
    /// What the `open` and the `seed` line told.
    pub heading: Option<Heading>,
    pub confirmations: Confirmations,
    /// When periods began, by the places of their starts.
    pub times: Times,
    pub kept: Result<(), AllocError>,
    pub end: FileEnd,
    /// The start that the newest line confirmed.
    started: Option<u32>,
}

impl Witness {
    /// No line was carried out.
    pub(crate) fn new(alloc: Global) -> Witness {
        Witness {
            lines: 0,
            heading: None,
            confirmations: Confirmations::default(),
            times: BTreeMap::new(alloc),
            kept: Ok(()),
            end: FileEnd::Unmet,
            started: None,
        }
    }

    /// These lines came next, each with its line feed, and so many of them, from the first on, were carried out.
    pub(crate) fn note_lines(&mut self, lines: &[u8], count: usize) {
        let mut rest = lines;
        for _ in 0..count {
            let Some(end) = memchr(b'\n', rest) else {
                return;
            };
            self.note(&rest[..end]);
            rest = &rest[end + 1..];
        }
    }

    /// The next line was carried out, which is given without its line feed.
    pub(crate) fn note(&mut self, line: &[u8]) {
        self.lines = self.lines.saturating_add(1);
        let started = self.started.take();
        match line {
            [b'=', b' ', told @ ..] => self.note_answer(told),
            [b'#', b' ', comment @ ..] => self.note_time(started, comment),
            _ => self.note_command(line),
        }
    }

    fn note_command(&mut self, line: &[u8]) {
        let (word, _) = cut_word(line);
        match first_word(word) {
            Some(Word::Tick | Word::Hear | Word::Join | Word::Remove) => {
                self.confirmations.call(self.lines);
            }
            Some(word @ (Word::Open | Word::Seed)) => self.note_heading(word, line),
            _ => {}
        }
    }

    /// Whether the header was told, and no call came so far.
    pub(crate) fn is_in_header(&self) -> bool {
        self.heading.is_some() && !self.has_calls()
    }

    /// Whether a call came.
    pub fn has_calls(&self) -> bool
        ensures { result ≡ has_calls self.now.confirmations }
    {
        let Confirmations {
            confirmed,
            waiting,
            missed,
        } = self.confirmations;
        confirmed > 0 || waiting.is_some() || missed.is_some()
    }

    /// A comment right behind the line of a start tells its time, if it is one and nothing else.
    fn note_time(&mut self, started: Option<u32>, comment: &[u8]) {
        if let (Some(place), Some(time)) = (started, read_time(comment)) {
            if self.times.insert(place, time).is_err() {
                self.kept = Err(AllocError);
            }
        }
    }

    /// What was told is the place of the newest entry and its answer, rightly.
    fn note_answer(&mut self, told: &[u8]) {
        let (digits, answer) = cut_word(told);
        let place = self.confirmations.confirmed;
        if number_in(digits) != u64::from(place) {
            return;
        }
        if answer.starts_with(b" started ") {
            self.started = Some(place);
        }
        self.confirmations.answer(place);
    }

    fn note_heading(&mut self, word: Word, line: &[u8]) {
        let mut words = Words::new(line);
        let _first = words.next();
        match read_command(Form::Journal, word, &mut words) {
            Ok(Some(Command::Open(arguments))) => {
                self.heading = Some(Heading {
                    limit: arguments.limit,
                    draw: None,
                });
            }
            Ok(Some(Command::Seed(key, life))) => {
                if let Some(heading) = &mut self.heading {
                    heading.draw = Some(Draw { key, life });
                }
            }
            _ => {}
        }
    }
}

/// What stands before the first space, and what stands from there on.
fn cut_word(text: &[u8]) -> (&[u8], &[u8]) {
    match text.iter().position(|byte| *byte == b' ') {
        Some(end) => text.split_at(end),
        None => (text, &[]),
    }
}

/// The number that digits tell, or 2^64-1 where they tell more.
fn number_in(digits: &[u8]) -> u64
    ensures { (n : ℕ) → n < 2 ^ 64 → digits.now ≡ decimal n → result ≡ n }
{
    let mut number = 0u64;
    for digit in digits {
        let value = digit.saturating_sub(b'0');
        number = number.saturating_mul(10).saturating_add(u64::from(value));
    }
    number
}
