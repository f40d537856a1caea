//! What a script has to have in the place of a fault.

use crate::grammar::Argument;
use std::fmt;
use swim_history::KNOWN_MEMBERS;
use swim_script::{JOURNAL_BYTES, LINE_BYTES, SCRIPT_BYTES};

/// What was expected.
#[derive(Clone, Copy)]
pub enum Expected {
    /// The opening, first.
    Opening,
    /// A line of the header or an event line.
    AnyLine,
    /// An event line.
    Event,
    /// In a journal file.
    EventOrAnswer,
    /// A call before a line that tells an answer.
    Call,
    /// Draws that are told in one way.
    OneChooser,
    Argument(Argument),
    LineEnd,
    /// Rows within the limits of an opening.
    FewRows,
    OtherRows,
    DifferentRows,
    UsedPeriods,
    ShortLine,
    ShortScript,
    ShortJournal,
    Memory,
    Input,
    Output,
}

impl fmt::Display for Expected {
    fn fmt<W: fmt::Write>(&self, f: &mut fmt::Formatter<W>) -> fmt::Result {
        match self {
            Expected::Opening => f.write_str(
                "open ME K RTT PERIOD LAST LIMIT, before any other line",
            ),
            Expected::AnyLine => {
                f.write_str("wire, row, order, place, seed, tick, hear, join, remove, table or gap")
            }
            Expected::Event => f.write_str("tick, hear, join, remove, table or gap"),
            Expected::EventOrAnswer => f.write_str("tick, hear, join, remove, table, gap or ="),
            Expected::Call => f.write_str("a call before it: tick, hear, join or remove"),
            Expected::OneChooser => f.write_str("one seed, or orders and places"),
            Expected::Argument(argument) => write!(f, "{argument}"),
            Expected::LineEnd => f.write_str("the end of the line"),
            Expected::FewRows => write!(f, "at most {KNOWN_MEMBERS} rows"),
            Expected::OtherRows => f.write_str("rows with other IDs than ME"),
            Expected::DifferentRows => f.write_str("rows with different IDs"),
            Expected::UsedPeriods => f.write_str("rows that failed in periods from 1 to LAST"),
            Expected::ShortLine => write!(f, "at most {LINE_BYTES} bytes in a line"),
            Expected::ShortScript => write!(f, "at most {SCRIPT_BYTES} bytes in a script"),
            Expected::ShortJournal => write!(f, "at most {JOURNAL_BYTES} bytes in a journal file"),
            Expected::Memory => f.write_str("memory to keep what the line tells"),
            Expected::Input => f.write_str("input that can be read"),
            Expected::Output => f.write_str("output that can be written"),
        }
    }
}
