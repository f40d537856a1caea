//! Writing what is heard of a daemon's events, line by line.

ghost use Rattle.std.specs.Prelude.{◌≡◌, IfOk, false, string_bytes, true};
ghost use Rattle.swim_watch.specs.Watching.{IsShown, Passes, Watches};

use crate::feeds::{EventLine, Feed};
use crate::objects::show;
use jiff::Timestamp;
use std::alloc::{AllocError, Global};
use std::rt::Clock;
use std::sync::Wait;
use swim_text::Sink;
use swim_wire::{Piece, put_pieces};

/// How watching ended.
#[derive(Clone, Copy, Debug, PartialEq, Eq)]
pub enum WatchEnd {
    /// No more lines will come.
    Over,
    /// A line can't be written.
    Unwritten,
    /// Memory for a line was refused.
    NoMemory,
}

/// What became of a line that was to be written.
#[derive(Clone, Copy)]
pub enum Passed {
    /// It was written and handed on.
    Whole,
    /// The sink didn't take all of it.
    Unwritten,
    /// Memory for it was refused, and nothing was written.
    NoMemory,
}

/// Writes each line that is heard before it waits for the next, as it came, or as an object of JSON with the time; up
/// to the end of the lines, or to one that can't be written.
#[tactic(auto, using(crate::proofs::Showing::none_shown, crate::proofs::Showing::over_shown))]
pub fn watch<R: Clock + Wait, F: Feed, W: Sink>(
    rt: &R,
    alloc: Global,
    feed: &mut F,
    is_json: bool,
    writer: &mut W,
) -> WatchEnd
    ensures { Watches is_json
        (record { heard = F.heard feed.old; written = W.written writer.old; held = W.held writer.old })
        (record { heard = F.heard feed.new; written = W.written writer.new; held = W.held writer.new }) result }
{
    let mut line = EventLine::new();
    for _line in rt.forever() {
        if !feed.hear(&mut line, writer) {
            return WatchEnd::Over;
        }
        match pass(alloc, rt, line.as_slice(), is_json, writer) {
            Passed::Whole => {}
            Passed::Unwritten => return WatchEnd::Unwritten,
            Passed::NoMemory => return WatchEnd::NoMemory,
        }
    }
    unreachable!()
}

/// Writes a line, and hands it on.
fn pass<K: Clock, W: Sink>(
    alloc: Global,
    clock: &K,
    line: &[u8],
    is_json: bool,
    writer: &mut W,
) -> Passed
    ensures passes { Passes is_json line.now (W.written writer.old) (W.written writer.new) result }
    ensures sent { result ≡ Passed.Whole → W.held writer.new ≡ 0 }
{
    if is_json {
        pass_object(alloc, clock, line, writer)
    } else {
        pass_text(line, writer)
    }
}

/// Writes a line as an object.
fn pass_object<K: Clock, W: Sink>(alloc: Global, clock: &K, line: &[u8], writer: &mut W) -> Passed
    ensures passes { Passes true line.now (W.written writer.old) (W.written writer.new) result }
    ensures sent { result ≡ Passed.Whole → W.held writer.new ≡ 0 }
{
    match shown_now(alloc, clock, line) {
        Ok(object) => pass_text(object.as_str().as_bytes(), writer),
        Err(_) => Passed::NoMemory,
    }
}

/// A line as an object with the time.
fn shown_now<K: Clock>(alloc: Global, clock: &K, line: &[u8]) -> Result<String, AllocError>
    ensures { IfOk result (λ text. IsShown true line.now (string_bytes text)) }
{
    let time = time_of(alloc, clock)?;
    show(alloc, line, time.as_str())
}

/// The time, as RFC 3339 has it; empty where the system can't tell it.
fn time_of<K: Clock>(alloc: Global, clock: &K) -> Result<String, AllocError> {
    match Timestamp::now(clock) {
        Ok(time) => format!(in alloc; "{time:.3}"),
        Err(_) => Ok(String::new(alloc)),
    }
}

/// Writes a text with a line feed behind it, and hands it on.
fn pass_text<W: Sink>(text: &[u8], writer: &mut W) -> Passed
    ensures passes { Passes false text.now (W.written writer.old) (W.written writer.new) result }
    ensures sent { result ≡ Passed.Whole → W.held writer.new ≡ 0 }
{
    let pieces = [Piece::Text(text), Piece::Text(b"\n")];
    if put_pieces(writer, &pieces) && writer.flush() {
        Passed::Whole
    } else {
        Passed::Unwritten
    }
}
