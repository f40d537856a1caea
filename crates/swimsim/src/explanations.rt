//! A fault of a script, explained to a person.

use crate::causes::{Cause, cause_for, cause_in, cause_in_spelling};
use crate::differences::first_difference;
use crate::expectations::Expected;
use crate::grammar::{Argument, index_in_open};
use crate::limits::LONGEST_TIMEOUT;
use crate::marks::{Mark, first_refused, part_at, word_at};
use crate::notes::{Notes, Told};
use crate::showing::Shown;
use std::fmt;
use swim_history::{OpeningFault, Row, RowState};
use swim_script::{
    Command, FaultKind, Form, LineFault, OpenArguments, ScriptFault, Word, first_word, read_command,
};
use swim_text::Words;
use swim_wire::Id;

/// A line with the word that is at fault.
#[derive(Clone, Copy)]
pub struct Marked<'a> {
    line: &'a [u8],
    mark: Mark<'a>,
}

/// What was expected: one of some things, or a line, without its line feed.
#[derive(Clone, Copy)]
enum Wanted<'a> {
    Thing(Expected),
    Line(&'a [u8]),
}

impl<'a> fmt::Display for Wanted<'a> {
    fn fmt<W: fmt::Write>(&self, f: &mut fmt::Formatter<W>) -> fmt::Result {
        match self {
            Wanted::Thing(expected) => write!(f, "{expected}"),
            Wanted::Line(line) => {
                let line = Shown { bytes: line };
                write!(f, "{line}")
            }
        }
    }
}

/// What is told of a fault: the line with a mark under the word, what was expected there, and the commonest cause.
#[derive(Drop)]
pub struct Explanation<'a> {
    marked: Option<Marked<'a>>,
    wanted: Wanted<'a>,
    cause: Option<Cause>,
}

impl<'a> Explanation<'a> {
    /// The explanation of a fault, from what was noted of its script, and from the line that tells the newest entry, if
    /// there is one.
    pub fn of(fault: &ScriptFault, notes: &'a Notes, newest: Option<&'a [u8]>) -> Explanation<'a> {
        if fault.line == 0 {
            return bare(Expected::Opening, Some(Cause::NoLine));
        }
        match fault.kind {
            FaultKind::Words(kind) => of_words(kind, notes.line(), notes.told()),
            FaultKind::Opening(kind) => of_opening(kind, notes.told()),
            FaultKind::Unused => of_unused(notes.told()),
            FaultKind::Long => bare(Expected::ShortLine, Some(Cause::LongLine(notes.bytes()))),
            FaultKind::Size => bare(size_of(notes.told().form), None),
            FaultKind::Memory => bare(Expected::Memory, None),
            FaultKind::Differs => of_difference(notes.line(), newest),
            FaultKind::Read => bare(Expected::Input, None),
            FaultKind::Write => bare(Expected::Output, None),
        }
    }
}

/// The lines of an explanation, each of which begins with two spaces.
impl<'a> fmt::Display for Explanation<'a> {
    fn fmt<W: fmt::Write>(&self, f: &mut fmt::Formatter<W>) -> fmt::Result {
        if let Some(marked) = self.marked {
            write!(f, "{marked}")?;
        }
        let wanted = self.wanted;
        write!(f, "  expected: {wanted}\n")?;
        match self.cause {
            Some(cause) => write!(f, "  cause: {cause}\n"),
            None => Ok(()),
        }
    }
}

impl<'a> fmt::Display for Marked<'a> {
    fn fmt<W: fmt::Write>(&self, f: &mut fmt::Formatter<W>) -> fmt::Result {
        let line = Shown { bytes: self.line };
        write!(f, "  {line}\n  ")?;
        let before = Shown {
            bytes: self.mark.before,
        };
        repeat(" ", before.width(), f)?;
        let word = Shown {
            bytes: self.mark.word,
        };
        repeat("^", word.width().max(1), f)?;
        f.write_str("\n")
    }
}

fn repeat<W: fmt::Write>(text: &str, count: usize, f: &mut fmt::Formatter<W>) -> fmt::Result {
    for _ in 0..count {
        f.write_str(text)?;
    }
    Ok(())
}

/// Without a line.
fn bare<'a>(expected: Expected, cause: Option<Cause>) -> Explanation<'a> {
    Explanation {
        marked: None,
        wanted: Wanted::Thing(expected),
        cause,
    }
}

/// At a word of a line.
fn at<'a>(
    line: &'a [u8],
    mark: Mark<'a>,
    expected: Expected,
    cause: Option<Cause>,
) -> Explanation<'a> {
    Explanation {
        marked: Some(Marked { line, mark }),
        wanted: Wanted::Thing(expected),
        cause: cause_in(line, &mark).or(cause),
    }
}

fn of_words<'a>(kind: LineFault, line: &'a [u8], told: &Told) -> Explanation<'a> {
    let mut words = Words::new(line);
    let first = words.next().and_then(|text| first_word(text));
    let mark = word_at(line, 0);
    match (kind, first) {
        (LineFault::Seed, _) => at(line, mark, Expected::OneChooser, cause_of_chooser(told)),
        (LineFault::Word, _) | (_, None) => {
            let (expected, cause) = of_first_word(first, mark.word, told);
            at(line, mark, expected, cause)
        }
        (_, Some(word)) => of_argument(told.form, word, line, &mut words),
    }
}

/// A first word that is unknown, or can't stand there.
fn of_first_word(first: Option<Word>, word: &[u8], told: &Told) -> (Expected, Option<Cause>) {
    let spelling = cause_in_spelling(word);
    if told.open.is_none() {
        return (Expected::Opening, spelling);
    }
    match (first, told.event) {
        (Some(Word::Open), Some(_)) => (event_in(told.form), Some(Cause::SecondOpen)),
        (Some(Word::Open), None) => (Expected::AnyLine, Some(Cause::SecondOpen)),
        (Some(_), Some(line)) => (event_in(told.form), Some(Cause::EventLine(line))),
        (Some(word), None) => (Expected::AnyLine, cause_in_header(word).or(spelling)),
        (None, Some(_)) => (event_in(told.form), spelling),
        (None, None) => (Expected::AnyLine, spelling),
    }
}

/// Why a word can't stand in a header behind the `open` line.
fn cause_in_header(word: Word) -> Option<Cause> {
    match word {
        Word::Wire => Some(Cause::SecondVersion),
        _ => None,
    }
}

/// What stands behind the first event line of a script of that form.
fn event_in(form: Form) -> Expected {
    match form {
        Form::Script => Expected::Event,
        Form::Journal => Expected::EventOrAnswer,
    }
}

/// How many bytes a script of that form may have.
fn size_of(form: Form) -> Expected {
    match form {
        Form::Script => Expected::ShortScript,
        Form::Journal => Expected::ShortJournal,
    }
}

/// A line that tells the newest entry otherwise than the one given.
fn of_difference<'a>(line: &'a [u8], newest: Option<&'a [u8]>) -> Explanation<'a> {
    let Some(wanted) = newest else {
        return at(line, word_at(line, 0), Expected::Call, None);
    };
    let mark = first_difference(line, wanted);
    Explanation {
        marked: Some(Marked { line, mark }),
        wanted: Wanted::Line(wanted),
        cause: cause_in(line, &mark),
    }
}

/// What tells already who chooses.
fn cause_of_chooser(told: &Told) -> Option<Cause> {
    if let Some(line) = told.seed {
        return Some(Cause::SeedLine(line));
    }
    let order = told.orders.first().map(|(line, _)| *line);
    let place = told.places.first().copied();
    match (order, place) {
        (Some(order), Some(place)) => Some(Cause::DrawnLine(order.min(place))),
        (Some(line), None) | (None, Some(line)) => Some(Cause::DrawnLine(line)),
        (None, None) => None,
    }
}

/// A word behind a known first word.
fn of_argument<'a>(
    form: Form,
    word: Word,
    line: &'a [u8],
    words: &mut Words<'a>,
) -> Explanation<'a> {
    let (index, refused) = first_refused(form, word, words);
    let mark = word_at(line, index);
    match refused {
        None => at(line, mark, Expected::LineEnd, None),
        Some(Argument::Ids) => of_ids(line, mark),
        Some(argument) => at(
            line,
            mark,
            Expected::Argument(argument),
            cause_for(argument, mark.word),
        ),
    }
}

/// The ids of an order: the first that is none is marked, and else all of them, since they are too many.
fn of_ids<'a>(line: &'a [u8], mark: Mark<'a>) -> Explanation<'a> {
    let expected = Expected::Argument(Argument::Ids);
    let mut parts = Words::split(mark.word, b',');
    let mut index: usize = 0;
    while let Some(part) = parts.next() {
        if Id::read(part).is_none() {
            return at_id(line, mark, index);
        }
        index = index.saturating_add(1);
    }
    at(line, mark, expected, Some(Cause::TooManyIds(index)))
}

/// One of an order's ids, which is none.
fn at_id<'a>(line: &'a [u8], ids: Mark<'a>, index: usize) -> Explanation<'a> {
    let expected = Expected::Argument(Argument::Ids);
    let end = ids.before.len().saturating_add(ids.word.len());
    let text = line.get(..end).unwrap_or(line);
    let mark = part_at(text, b',', ids.before.len(), index);
    if mark.word.is_empty() && !ids.word.is_empty() {
        return Explanation {
            marked: Some(Marked { line, mark }),
            wanted: Wanted::Thing(expected),
            cause: Some(Cause::Comma),
        };
    }
    at(line, mark, expected, cause_for(Argument::Member, mark.word))
}

/// An opening that is refused, at its `open` line.
fn of_opening<'a>(kind: OpeningFault, told: &'a Told) -> Explanation<'a> {
    let Some(open) = &told.open else {
        return bare(Expected::Opening, None);
    };
    let line = open.as_slice();
    let rows = told.rows.as_slice();
    let opened = arguments_in(line);
    let (index, expected, cause) = match kind {
        OpeningFault::Relays => refused_for(kind, Argument::Relays),
        OpeningFault::Timing if has_bad_timeout(opened) => refused_for(kind, Argument::Timeout),
        OpeningFault::Timing => refused_for(kind, Argument::Period),
        OpeningFault::TooManyRows => (0, Expected::FewRows, last_row(rows)),
        OpeningFault::Myself => {
            let index = index_in_open(Argument::Me);
            (index, Expected::OtherRows, row_of_me(opened, rows))
        }
        OpeningFault::Twice => (0, Expected::DifferentRows, rows_twice(rows)),
    };
    at(line, word_at(line, index), expected, cause)
}

/// An argument that an opening is refused for: the index of its word, what was expected there, and the cause.
fn refused_for(kind: OpeningFault, argument: Argument) -> (usize, Expected, Option<Cause>) {
    (
        index_in_open(argument),
        Expected::Argument(argument),
        Some(Cause::Opening(kind)),
    )
}

/// An opening with a row that failed in a period that wasn't used, at the last number of its `open` line.
fn of_unused<'a>(told: &'a Told) -> Explanation<'a> {
    let Some(open) = &told.open else {
        return bare(Expected::Opening, None);
    };
    let line = open.as_slice();
    let cause = row_unused(arguments_in(line), told.rows.as_slice());
    let mark = word_at(line, index_in_open(Argument::Last));
    at(line, mark, Expected::UsedPeriods, cause)
}

/// What an `open` line tells.
fn arguments_in(line: &[u8]) -> Option<OpenArguments> {
    let mut words = Words::new(line);
    let _open = words.next()?;
    match read_command(Form::Script, Word::Open, &mut words) {
        Ok(Some(Command::Open(arguments))) => Some(arguments),
        _ => None,
    }
}

fn has_bad_timeout(opened: Option<OpenArguments>) -> bool {
    match opened {
        Some(arguments) => arguments.rtt == 0 || arguments.rtt > LONGEST_TIMEOUT,
        None => false,
    }
}

/// The row with the id of the opening's own member.
fn row_of_me(opened: Option<OpenArguments>, rows: &[(u32, Row)]) -> Option<Cause> {
    let me = opened?.me;
    Some(Cause::MyselfIn(line_of(rows, me)?))
}

/// The first row whose id an earlier one has, and that one.
fn rows_twice(rows: &[(u32, Row)]) -> Option<Cause> {
    for (second, row) in rows {
        let first = line_of(rows, row.id)?;
        if first < *second {
            return Some(Cause::Twice {
                member: row.id,
                first,
                second: *second,
            });
        }
    }
    None
}

/// The line of the first row with an id.
fn line_of(rows: &[(u32, Row)], member: Id) -> Option<u32> {
    for (line, row) in rows {
        if row.id == member {
            return Some(*line);
        }
    }
    None
}

/// The first row that failed in a period of a number that is 0, or beyond the last that was used.
fn row_unused(opened: Option<OpenArguments>, rows: &[(u32, Row)]) -> Option<Cause> {
    let last = opened?.last;
    for (line, row) in rows {
        if let RowState::Failed(number) = row.state
            && (number == 0 || number > last)
        {
            return Some(Cause::Unused {
                line: *line,
                number,
            });
        }
    }
    None
}

/// The last row that is noted, which is one too many.
fn last_row(rows: &[(u32, Row)]) -> Option<Cause> {
    let (line, _) = rows.last()?;
    Some(Cause::RowTooMany(*line))
}
