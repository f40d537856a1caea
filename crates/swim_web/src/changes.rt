//! The events that are kept, as JSON.

ghost use Rattle.std.specs.Prelude.{◌≡◌, ◌++◌, map};
ghost use Rattle.swim_text.specs.Streams.{Puts};
ghost use Rattle.swim_web.specs.Changes.{changes_lead, changes_text, lines_after};

use crate::tellers::EventLine;
use swim_text::Sink;
use swim_wire::{Piece, put_pieces};

/// Writes an object with events, oldest first, and whether verdicts are explained by pages. Returns whether the sink
/// took all of it.
#[tactic(auto, using(swim_text::specs::Streams::puts_then, swim_text::specs::Streams::puts_less))]
pub fn put_changes<W: Sink>(writer: &mut W, is_explained: bool, lines: &[EventLine]) -> bool
    ensures { Puts (W.written writer.old) (W.written writer.new)
        (changes_text is_explained (map (λ l. l.items) lines.now)) result }
{
    if !writer.put(lead_for(is_explained)) {
        return false;
    }
    if !put_lines(writer, b"", lines) {
        return false;
    }
    writer.put(b"]}\n")
}

/// Returns what stands before the events.
fn lead_for(is_explained: bool) -> &'static [u8]
    ensures { result.now ≡ changes_lead is_explained }
{
    if is_explained {
        b"{\"explained\":true,\"changes\":["
    } else {
        b"{\"explained\":false,\"changes\":["
    }
}

/// Writes the objects of events, this text before the first, and a comma before each other.
fn put_lines<W: Sink>(writer: &mut W, lead: &[u8], lines: &[EventLine]) -> bool
    ensures { Puts (W.written writer.old) (W.written writer.new)
        (lines_after lead.now (map (λ l. l.items) lines.now)) result }
{
    let [first, others @ ..] = lines else {
        return writer.put(b"");
    };
    if !put_line(writer, lead, first.as_slice()) {
        return false;
    }
    put_lines(writer, b",", others)
}

/// Writes the object of an event after some text.
fn put_line<W: Sink>(writer: &mut W, lead: &[u8], line: &[u8]) -> bool
    ensures { Puts (W.written writer.old) (W.written writer.new) (lead.now ++ line.now) result }
{
    let pieces = [Piece::Text(lead), Piece::Text(line)];
    put_pieces(writer, &pieces)
}
