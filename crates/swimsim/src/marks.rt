//! Where in a line a word stands.

use crate::grammar::{Argument, arguments_of, take_argument};
use swim_script::{Form, Word};
use swim_text::Words;

/// A part of a line: the bytes before it, and its own. A word that is missing has none, behind the line's end.
#[derive(Clone, Copy)]
pub struct Mark<'a> {
    pub before: &'a [u8],
    pub word: &'a [u8],
    /// Whether the line ends before it.
    pub is_missing: bool,
}

/// The word of a line with that index, counted from 0.
pub fn word_at<'a>(line: &'a [u8], index: usize) -> Mark<'a> {
    part_at(line, b' ', 0, index)
}

/// The part of a line with that index, where all behind its first `from` bytes is cut at each separator.
pub fn part_at<'a>(line: &'a [u8], separator: u8, from: usize, index: usize) -> Mark<'a> {
    let mut start = from.min(line.len());
    let mut parts = Words::split(&line[start..], separator);
    for _ in 0..index {
        if let Some(part) = parts.next() {
            start = start.saturating_add(part.len() + 1);
        }
    }
    match parts.next() {
        Some(word) => Mark {
            before: &line[..start.min(line.len())],
            word,
            is_missing: false,
        },
        None => Mark {
            before: line,
            word: b"",
            is_missing: true,
        },
    }
}

/// The first argument that the words behind the first are refused at, with the index of its word; `None` where each is
/// taken, with the index of the word behind them.
pub fn first_refused(form: Form, word: Word, words: &mut Words<'_>) -> (usize, Option<Argument>) {
    let mut index: usize = 1;
    for argument in arguments_of(form, word) {
        if !take_argument(*argument, words) {
            return (index, Some(*argument));
        }
        index = index.saturating_add(1);
    }
    (index, None)
}
