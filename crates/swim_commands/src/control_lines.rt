//! Control lines as they are sent to a daemon.

ghost use Rattle.std.specs.Prelude.{◌≡◌, ◌≤◌, ◌∷◌, ◌++◌, [], length, map, take};
ghost use Rattle.std.specs.List.{flat_map};
ghost use Rattle.swim_commands.specs.Asking.{Reads, end_met, joined};

use arrayvec::ArrayVec;
use swim_text::{Byte, Source};

/// How many bytes of a line are sent at most: one more than a daemon takes, so that it says of a longer one that it
/// is too long.
const SENT_BYTES: usize = 129;

/// Room for what is sent of a line, with its line feed.
const LINE_BYTES: usize = SENT_BYTES + 1;

/// What is sent of a line.
pub type ControlLine = ArrayVec<u8, LINE_BYTES>;

/// What a look for the next line of an input met.
#[derive(Clone, Copy)]
pub enum NextLine {
    /// A line, with its line feed; the last one may have none.
    Line,
    /// The end of the input.
    Over,
    /// A read that failed.
    Fault,
}

/// Reads the next line of an input, and keeps what is sent of it.
#[tactic(auto, using(crate::proofs::ControlLines::begins, crate::proofs::ControlLines::goes_further, crate::proofs::ControlLines::line_fits, crate::proofs::ControlLines::ends_by_feed, crate::proofs::ControlLines::ends_by_end, crate::proofs::ControlLines::ends_by_fault))]
pub fn read_line<S: Source>(reader: &mut S, line: &mut ControlLine) -> NextLine
    ensures { Reads result (S.left reader.old) (S.left reader.new) line.new.items }
{
    line.clear();
    let mut is_begun = false;
    for _turn in 0..u64::MAX {
        match reader.byte() {
            Byte::Fault => return NextLine::Fault,
            Byte::End => return at_end(is_begun),
            Byte::One(b'\n') => {
                line.push(b'\n');
                return NextLine::Line;
            }
            Byte::One(byte) => add(line, &[byte], SENT_BYTES),
        }
        is_begun = true;
    }
    NextLine::Fault
}

/// What the end of an input is, where a line has begun or has not.
fn at_end(is_begun: bool) -> NextLine
    ensures { result ≡ end_met is_begun }
{
    if is_begun {
        NextLine::Line
    } else {
        NextLine::Over
    }
}

/// The line that words make, with single spaces between them, as much as is sent of it.
pub fn line_of(words: &[&str]) -> ControlLine
    ensures { result.items ≡ take 129 (joined (map (λ word. word.now) words.now)) ++ 10 ∷ [] }
{
    let mut line = joined(words);
    line.push(b'\n');
    line
}

/// Words with single spaces between them, as much as is sent of a line.
#[tactic(auto, using(crate::proofs::ControlLines::no_words, crate::proofs::ControlLines::taken_within))]
fn joined(words: &[&str]) -> ControlLine
    ensures joined { result.items ≡ take 129 (joined (map (λ word. word.now) words.now)) }
    ensures room { length result.items ≤ 129 }
{
    let spaced = spaced(words);
    match spaced.as_slice().split_first() {
        Some((_space, rest)) => front_of(rest),
        None => ControlLine::new(),
    }
}

/// The front of a text, as much as is sent of a line.
fn front_of(text: &[u8]) -> ControlLine
    ensures { result.items ≡ take 129 text.now }
{
    let mut line = ControlLine::new();
    add(&mut line, text, SENT_BYTES);
    line
}

/// Words, each with a space in front of it, as much as there is room for.
#[tactic(auto, using(crate::proofs::ControlLines::spaced_more))]
fn spaced(words: &[&str]) -> ControlLine
    ensures { result.items ≡ take 130 (flat_map (λ word. 32 ∷ word) (map (λ word. word.now) words.now)) }
{
    let mut text = ControlLine::new();
    for word in words {
        add(&mut text, b" ", LINE_BYTES);
        add(&mut text, word.as_bytes(), LINE_BYTES);
    }
    text
}

/// Adds bytes to a line, as many as it may have then.
fn add(line: &mut ControlLine, bytes: &[u8], most: usize)
    requires line { length line.old.items ≤ most }
    requires most { most ≤ 130 }
    ensures { line.new.items ≡ take most (line.old.items ++ bytes.now) }
{
    let count = bytes.len().min(most - line.len());
    let _is_added = line.try_extend_from_slice(&bytes[..count]);
}
