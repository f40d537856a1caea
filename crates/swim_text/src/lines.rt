//! Lines of a source.

ghost use Rattle.std.specs.Prelude.{◌≡◌, ℕ, ◌+◌, ◌<◌, ◌≤◌, ◌++◌, length, false, None as none, Some as some, is_some};
ghost use Rattle.std.specs.Prelude.{IfSome, IfNone};
ghost use Rattle.std.specs.Io.KnownBytes.{Keeps};
ghost use Rattle.swim_text.specs.Streams.{Gives, failures_then, failures_if};
ghost use Rattle.swim_text.specs.Lines.{TakesKnown, has_feed, ended, failures_read, failures_sent};
ghost use Rattle.swim_text.specs.Cutting.{KeepsPart, IsPart, Steps, TakesPart, feed_if};
ghost use Rattle.swim_text.specs.Failures.{failures_met};

use crate::parts::cut;
use crate::streams::{Byte, Sink, Source};
use arrayvec::ArrayVec;

/// The byte that ends a line.
const LINE_FEED: u8 = b'\n';

/// What the reader of a line met. Where several apply, the first that the reading comes upon is told; of a line that is
/// both too long and too large it is `Size`.
#[derive(Clone, Copy, Debug, PartialEq, Eq)]
pub enum Taken {
    /// A line, that is within the limit.
    Line,
    /// A line that is longer than the limit; it was read to its end.
    Long,
    /// A line that goes past the budget of bytes.
    Size,
    /// The end of the source, where a line would begin.
    Over,
    /// A read failed.
    Failed,
    /// The answers so far could not be handed on.
    Unsent,
}

/// Reads the next line into `line`, without its line feed. What follows the last line feed is a line if it has a
/// byte. Each byte of the line, with its line feed, lowers the budget by one, and of a line that goes past it one byte
/// more is read. Before each read that may wait for the outside, the writer is flushed, so that whoever sits at the
/// other end sees every answer first.
///
/// What `line` holds is told at `Taken::Line` alone.
pub fn next_line<R: Source, W: Sink, const LIMIT: usize>(
    reader: &mut R,
    writer: &mut W,
    line: &mut ArrayVec<u8, LIMIT>,
    budget: &mut u32,
) -> Taken
    ensures takes { TakesKnown (R.left reader.old) (R.left reader.new) result
        line.new.items LIMIT budget.old budget.new }
    ensures kept { Keeps (W.written writer.old) (W.written writer.new) }
    ensures reads { R.failures reader.new ≡ failures_read (R.failures reader.old) result }
    ensures writes { W.failures writer.new ≡ failures_sent (W.failures writer.old) result }

    // Also of a source whose bytes are not known.
    ensures spends { result ≡ Taken.Line → budget.new < budget.old }
    // Before the end of the source, or a read that failed, was met, the writer was flushed.
    ensures over { result ≡ Taken.Over → W.held writer.new ≡ 0 }
    ensures failed { result ≡ Taken.Failed → W.held writer.new ≡ 0 }
{
    let start = *budget;
    let mut is_long = false;
    line.clear();
    loop {
        let met = if reader.ready().is_empty() {
            read_byte(reader, writer, line, &mut is_long, start, budget)
        } else {
            read_ready(reader, line, &mut is_long, budget)
        };
        if let Some(taken) = met {
            return taken;
        }
    }
}

/// Reads the bytes of the line that are ready, and answers what the line was if it has ended.
fn read_ready<R: Source, const LIMIT: usize>(
    reader: &mut R,
    line: &mut ArrayVec<u8, LIMIT>,
    is_long: &mut bool,
    budget: &mut u32,
) -> Option<Taken>
    requires { 0 < length (R.ready reader.old) }
    ensures steps { (start : ℕ) → Steps result (R.left reader.old) (R.left reader.new)
        line.old.items line.new.items LIMIT start budget.old budget.new is_long.old is_long.new }
    ensures reads { R.failures reader.new ≡ failures_met failures_read (R.failures reader.old) result }
    ensures writes { (n : ℕ) → failures_met failures_sent n result ≡ n }
    ensures within { budget.new ≤ budget.old }
    ensures spends { result ≡ none → budget.new < budget.old }
    ensures ends { result ≡ some Taken.Line → budget.new < budget.old }
    ensures not_over { ¬ (result ≡ some Taken.Over) }
    ensures not_failed { ¬ (result ≡ some Taken.Failed) }
{
    let (part, is_ended) = part_within(reader.ready(), *budget);
    let count = part.len() + usize::from(is_ended);
    let met = take_part(line, is_long, budget, part, is_ended);
    reader.skip(count);
    met
}

/// The first line of some bytes without its line feed, and whether it has one; of a line that goes past the budget, as
/// much as shows that.
fn part_within(bytes: &[u8], budget: u32) -> (&[u8], bool)
    ensures part { IsPart bytes.now result.0.now result.1 }
    ensures within { length (result.0.now ++ feed_if result.1) ≤ budget + 1 }
{
    let most = bytes.len().min(budget as usize + 1);
    first_part(&bytes[..most])
}

/// The first line of some bytes without its line feed, and whether it has one.
pub(crate) fn first_part(bytes: &[u8]) -> (&[u8], bool)
    ensures { IsPart bytes.now result.0.now result.1 }
{
    match cut(bytes, LINE_FEED) {
        Some((part, _)) => (part, true),
        None => (bytes, false),
    }
}

/// Reads one byte, which may wait for the outside, and answers what the line was if it has ended.
fn read_byte<R: Source, W: Sink, const LIMIT: usize>(
    reader: &mut R,
    writer: &mut W,
    line: &mut ArrayVec<u8, LIMIT>,
    is_long: &mut bool,
    start: u32,
    budget: &mut u32,
) -> Option<Taken>
    requires { budget.old ≤ start }
    ensures steps { Steps result (R.left reader.old) (R.left reader.new)
        line.old.items line.new.items LIMIT start budget.old budget.new is_long.old is_long.new }
    ensures kept { Keeps (W.written writer.old) (W.written writer.new) }
    ensures reads { R.failures reader.new ≡ failures_met failures_read (R.failures reader.old) result }
    ensures writes { W.failures writer.new ≡ failures_met failures_sent (W.failures writer.old) result }
    ensures within { budget.new ≤ budget.old }
    ensures spends { result ≡ none → budget.new < budget.old }
    ensures ends { result ≡ some Taken.Line → budget.new < start }
    ensures over { result ≡ some Taken.Over → W.held writer.new ≡ 0 }
    ensures failed { result ≡ some Taken.Failed → W.held writer.new ≡ 0 }
{
    match next_byte(reader, writer) {
        None => Some(Taken::Unsent),
        Some(Byte::Fault) => Some(Taken::Failed),
        Some(Byte::End) => Some(at_end(*budget == start, *is_long)),
        Some(Byte::One(byte)) => {
            let bytes = [byte];
            let (part, is_ended) = first_part(&bytes);
            take_part(line, is_long, budget, part, is_ended)
        }
    }
}

/// Puts a part of a line behind those before it, and answers what the line was if it has ended.
fn take_part<const LIMIT: usize>(
    line: &mut ArrayVec<u8, LIMIT>,
    is_long: &mut bool,
    budget: &mut u32,
    part: &[u8],
    is_ended: bool,
) -> Option<Taken>
    requires unfed { has_feed part.now ≡ false }
    requires within { length (part.now ++ feed_if is_ended) ≤ budget.old + 1 }
    ensures takes { TakesPart result part.now is_ended
        line.old.items line.new.items LIMIT budget.old budget.new is_long.old is_long.new }
    ensures reads { (n : ℕ) → failures_met failures_read n result ≡ n }
    ensures writes { (n : ℕ) → failures_met failures_sent n result ≡ n }
    ensures within { budget.new ≤ budget.old }
    ensures spends { result ≡ none → 0 < length (part.now ++ feed_if is_ended) → budget.new < budget.old }
    ensures ends { result ≡ some Taken.Line → budget.new < budget.old }
    ensures not_over { ¬ (result ≡ some Taken.Over) }
    ensures not_failed { ¬ (result ≡ some Taken.Failed) }
{
    let count = part.len() + usize::from(is_ended);
    if count > *budget as usize {
        return Some(Taken::Size);
    }
    *budget -= count as u32;
    *is_long = keep(line, *is_long, part);
    if is_ended {
        Some(at_end(false, *is_long))
    } else {
        None
    }
}

/// Puts a part of a line behind those before it, unless the line is too long, and answers whether it is.
fn keep<const LIMIT: usize>(line: &mut ArrayVec<u8, LIMIT>, is_long: bool, part: &[u8]) -> bool
    ensures { KeepsPart is_long result line.old.items line.new.items part.now LIMIT }
{
    is_long || line.try_extend_from_slice(part).is_err()
}

/// What a line was that has ended.
fn at_end(is_empty: bool, is_long: bool) -> Taken
    ensures { result ≡ ended is_empty is_long }
{
    if is_empty {
        Taken::Over
    } else if is_long {
        Taken::Long
    } else {
        Taken::Line
    }
}

/// The next byte, after the writer was flushed, since the read may wait; `None` where it could not be flushed.
pub(crate) fn next_byte<R: Source, W: Sink>(reader: &mut R, writer: &mut W) -> Option<Byte>
    ensures bytes { IfSome result (λ b. Gives (R.left reader.old) (R.left reader.new) b) }
    ensures reads { IfSome result (λ b. R.failures reader.new ≡ failures_then (R.failures reader.old) b) }
    ensures unread { IfNone result (reader.new ≡ reader.old) }
    ensures kept { Keeps (W.written writer.old) (W.written writer.new) }
    ensures writes { W.failures writer.new ≡ failures_if (W.failures writer.old) (is_some result) }
    ensures sent { IfSome result (λ b. W.held writer.new ≡ 0) }
{
    if !writer.flush() {
        return None;
    }
    Some(reader.byte())
}
