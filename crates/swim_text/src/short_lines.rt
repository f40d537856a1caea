//! Lines of somebody who waits for an answer: reading ends at the byte too many.

ghost use Rattle.std.specs.Prelude.{◌≡◌, ℕ, ◌+◌, ◌<◌, ◌≤◌, List, length, take, None as none, Some as some, not, true};
ghost use Rattle.std.specs.Prelude.{false};
ghost use Rattle.std.specs.Io.KnownBytes.{Keeps, append_known};
ghost use Rattle.swim_text.specs.Streams.{failures_if};
ghost use Rattle.swim_text.specs.ShortLines.{ComesKnown, Advances, AdvancesBy, is_failed, is_unsent, has_failed};
ghost use Rattle.swim_text.specs.ShortLines.{is_unsent_at, met_at, at_end, KeepsIf};

use crate::lines::{first_part, next_byte};
use crate::streams::{Byte, Sink, Source};
use arrayvec::ArrayVec;

/// What ended the reading of a line.
#[derive(Clone, Copy, Debug, PartialEq, Eq)]
pub enum LineEnd {
    /// Its line feed.
    Feed,
    /// A byte more than the limit. Nothing after it was read.
    Long,
    /// The end of the source, within the line.
    Unended,
    /// The end of the source, where a line would begin.
    Over,
    /// As many reads were made as may be, and another is wanted.
    Spent,
    /// A read failed.
    Failed,
    /// The answers so far could not be handed on.
    Unsent,
}

/// Reads the next line into `line`, without its line feed, and no byte after what ended it. Each byte that is taken
/// counts as a read, and so does the look for the end. Before each read that may wait for the outside, the writer is
/// flushed, so that whoever sits at the other end sees every answer first.
///
/// What `line` holds at `LineEnd::Long` is not told.
pub fn next_short_line<R: Source, W: Sink, const LIMIT: usize>(
    reader: &mut R,
    writer: &mut W,
    line: &mut ArrayVec<u8, LIMIT>,
    reads: &mut u32,
) -> LineEnd
    ensures comes { ComesKnown (R.left reader.old) (R.left reader.new) result
        line.new.items LIMIT reads.old reads.new }
    ensures kept { Keeps (W.written writer.old) (W.written writer.new) }
    ensures reads { R.failures reader.new ≡ failures_if (R.failures reader.old) (not (is_failed result)) }
    ensures writes { W.failures writer.new ≡ failures_if (W.failures writer.old) (not (is_unsent result)) }

    // Also of a source whose bytes are not known.
    ensures spends { result ≡ LineEnd.Feed → reads.new < reads.old }

    // Before a read that failed the writer was flushed.
    ensures sent { is_failed result ≡ true → W.held writer.new ≡ 0 }
{
    line.clear();
    while *reads > 0 {
        let met = if reader.ready().is_empty() {
            read_byte(reader, writer, line, reads)
        } else {
            read_ready(reader, line, reads)
        };
        if let Some(end) = met {
            return end;
        }
    }
    LineEnd::Spent
}

/// Takes the bytes of the line that are ready, and answers what ended it if anything did.
pub(crate) fn read_ready<R: Source, const LIMIT: usize>(
    reader: &mut R,
    line: &mut ArrayVec<u8, LIMIT>,
    reads: &mut u32,
) -> Option<LineEnd>
    requires ready { 0 < length (R.ready reader.old) }
    requires reads { 0 < reads.old }
    ensures advances { Advances result (R.left reader.old) (R.left reader.new)
        line.old.items line.new.items LIMIT reads.old reads.new }
    ensures given { (bytes : List ℕ) × (R.given reader.new ≡ append_known (R.given reader.old) bytes)
        × AdvancesBy result bytes line.old.items line.new.items LIMIT reads.old reads.new }
    ensures reads { R.failures reader.new ≡ failures_if (R.failures reader.old) (not (has_failed result)) }
    ensures writes { is_unsent_at result ≡ false }
    ensures whole { has_failed result ≡ false }
    ensures spends { result ≡ none → reads.new < reads.old }
    ensures ends { result ≡ some LineEnd.Feed → reads.new < reads.old }
{
    let (count, met) = take_bytes(line, reads, reader.ready());
    reader.skip(count);
    met
}

/// Takes one byte, for which it may wait, and answers what ended the line if anything did.
fn read_byte<R: Source, W: Sink, const LIMIT: usize>(
    reader: &mut R,
    writer: &mut W,
    line: &mut ArrayVec<u8, LIMIT>,
    reads: &mut u32,
) -> Option<LineEnd>
    requires { 0 < reads.old }
    ensures advances { Advances result (R.left reader.old) (R.left reader.new)
        line.old.items line.new.items LIMIT reads.old reads.new }
    ensures kept { Keeps (W.written writer.old) (W.written writer.new) }
    ensures reads { R.failures reader.new ≡ failures_if (R.failures reader.old) (not (has_failed result)) }
    ensures writes { W.failures writer.new ≡ failures_if (W.failures writer.old) (not (is_unsent_at result)) }
    ensures spends { result ≡ none → reads.new < reads.old }
    ensures ends { result ≡ some LineEnd.Feed → reads.new < reads.old }
    ensures sent { has_failed result ≡ true → W.held writer.new ≡ 0 }
{
    match next_byte(reader, writer) {
        None => Some(LineEnd::Unsent),
        Some(Byte::Fault) => Some(LineEnd::Failed),
        Some(Byte::End) => {
            *reads -= 1;
            Some(at_end(line.is_empty()))
        }
        Some(Byte::One(byte)) => {
            let bytes = [byte];
            let (_, met) = take_bytes(line, reads, &bytes);
            met
        }
    }
}

/// Takes bytes of a line up to its line feed or the byte too many, as many as there are reads for. It answers how
/// many those were, and what ended the line if anything did.
fn take_bytes<const LIMIT: usize>(
    line: &mut ArrayVec<u8, LIMIT>,
    reads: &mut u32,
    bytes: &[u8],
) -> (usize, Option<LineEnd>)
    requires some { 0 < length bytes.now }
    requires reads { 0 < reads.old }
    ensures advances { AdvancesBy result.1
        (take result.0 bytes.now) line.old.items line.new.items LIMIT reads.old reads.new }
    ensures count { (0 < result.0) × (result.0 ≤ length bytes.now) }
    ensures whole { (has_failed result.1 ≡ false) × (is_unsent_at result.1 ≡ false) }
    ensures spends { reads.new < reads.old }
{
    let left = *reads;
    let room = (LIMIT - line.len()).saturating_add(1);
    let most = bytes.len().min(room).min(left as usize);
    let (part, is_ended) = first_part(&bytes[..most]);
    let count = part.len() + usize::from(is_ended);
    *reads = left - count as u32;
    let is_kept = keep(line, part);
    (count, met_at(is_ended, is_kept))
}

/// Puts a part of a line behind those before it, and answers whether it fits.
fn keep<const LIMIT: usize>(line: &mut ArrayVec<u8, LIMIT>, part: &[u8]) -> bool
    ensures { KeepsIf result line.old.items line.new.items part.now LIMIT }
{
    line.try_extend_from_slice(part).is_ok()
}

/// What ended a line of which a part was taken, if anything did.
fn met_at(is_ended: bool, is_kept: bool) -> Option<LineEnd>
    ensures { result ≡ met_at is_ended is_kept }
{
    if is_ended {
        Some(LineEnd::Feed)
    } else if is_kept {
        None
    } else {
        Some(LineEnd::Long)
    }
}

/// What the end of the source is to a line.
pub(crate) fn at_end(is_empty: bool) -> LineEnd
    ensures { result ≡ at_end is_empty }
{
    if is_empty {
        LineEnd::Over
    } else {
        LineEnd::Unended
    }
}
