//! The small texts beside the strokes, written to a sink. Each function returns whether the sink took its text.

ghost use Rattle.std.specs.Prelude.{◌≡◌};
ghost use Rattle.swim_text.specs.Streams.{Puts, failures_if};
ghost use Rattle.swim_chart.specs.Notes.{first_sent, is_labelled, label_at, label_fall, label_text, note_text};
ghost use Rattle.swim_chart.specs.Notes.{notes_text, number_fall, number_text, numbers_text};

use crate::arrows::{is_shown, kind_name};
use crate::charts::Arrow;
use crate::roles::Role;
use crate::spots::{Point, end_of, line_of, middle, start_of};
use swim_text::Sink;
use swim_wire::{Piece, put_pieces};

/// Writes the texts beside strokes, with that number of relays.
pub(crate) fn put_notes<W: Sink>(writer: &mut W, relays: u32, arrows: &[Arrow]) -> bool
    ensures bytes { Puts (W.written writer.old) (W.written writer.new) (notes_text relays arrows.now) result }
    ensures failures { W.failures writer.new ≡ failures_if (W.failures writer.old) result }
{
    let [first, others @ ..] = arrows else {
        return writer.put(b"");
    };
    if !put_note(writer, relays, first) {
        return false;
    }
    put_notes(writer, relays, others)
}

/// Writes the texts beside a stroke.
fn put_note<W: Sink>(writer: &mut W, relays: u32, arrow: &Arrow) -> bool
    ensures bytes { Puts (W.written writer.old) (W.written writer.new) (note_text relays arrow.now) result }
    ensures failures { W.failures writer.new ≡ failures_if (W.failures writer.old) result }
{
    if !put_label(writer, relays, arrow) {
        return false;
    }
    put_numbers(writer, relays, arrow)
}

/// Writes the kind of a datagram, if it has a stroke and no other stands for it.
fn put_label<W: Sink>(writer: &mut W, relays: u32, arrow: &Arrow) -> bool
    ensures bytes { Puts (W.written writer.old) (W.written writer.new) (label_text relays arrow.now) result }
    ensures failures { W.failures writer.new ≡ failures_if (W.failures writer.old) result }
{
    if is_shown(arrow.way.fate) && is_labelled(arrow.role) {
        put_label_at(writer, middle(line_of(relays, arrow)), arrow)
    } else {
        writer.put(b"")
    }
}

/// Returns whether a datagram has its kind beside it: of the requests, which leave together, the first alone.
fn is_labelled(role: Role) -> bool
    ensures { result ≡ is_labelled role }
{
    match role {
        Role::Request(relay) => relay == 0,
        Role::Ping | Role::Ack => true,
        Role::RelayPing(_) | Role::RelayAck(_) | Role::Forward(_) => true,
    }
}

/// Writes the kind of a datagram beside the middle of its line.
fn put_label_at<W: Sink>(writer: &mut W, place: Point, arrow: &Arrow) -> bool
    ensures bytes { Puts (W.written writer.old) (W.written writer.new) (label_at place arrow.now) result }
    ensures failures { W.failures writer.new ≡ failures_if (W.failures writer.old) result }
{
    let pieces = [
        Piece::Text(b"<text class=\"label\" x=\""),
        Piece::Number(place.x),
        Piece::Text(b"\" y=\""),
        Piece::Number(place.y),
        Piece::Text(b"\" dx=\"8\" dy=\""),
        Piece::Text(label_fall(arrow.role)),
        Piece::Text(b"\">"),
        Piece::Text(kind_name(arrow.way.leg.kind)),
        Piece::Text(b"</text>\n"),
    ];
    put_pieces(writer, &pieces)
}

/// Returns how far below the middle of its line the kind of a datagram is.
fn label_fall(role: Role) -> &'static [u8]
    ensures { result.now ≡ label_fall role }
{
    match role {
        Role::Ping | Role::Request(_) | Role::RelayAck(_) => b"-3",
        Role::Ack | Role::RelayPing(_) | Role::Forward(_) => b"12",
    }
}

/// Writes the entries that sent and heard a datagram, as far as they are known and don't stand there already.
fn put_numbers<W: Sink>(writer: &mut W, relays: u32, arrow: &Arrow) -> bool
    ensures bytes { Puts (W.written writer.old) (W.written writer.new) (numbers_text relays arrow.now) result }
    ensures failures { W.failures writer.new ≡ failures_if (W.failures writer.old) result }
{
    let sent = first_sent(arrow.role, arrow.sent);
    if !put_number_at(writer, start_of(relays, arrow.role), b"-11", sent) {
        return false;
    }
    let fall = number_fall(arrow.role);
    put_number_at(writer, end_of(relays, arrow), fall, arrow.heard)
}

/// Returns the entry that sent a datagram, if that is one at which no other datagram ends or begins.
fn first_sent(role: Role, sent: Option<u32>) -> Option<u32>
    ensures { result ≡ first_sent role sent }
{
    match role {
        Role::Ping | Role::Request(0) => sent,
        Role::Request(_) => None,
        Role::Ack | Role::RelayPing(_) | Role::RelayAck(_) | Role::Forward(_) => None,
    }
}

/// Returns how far below the line of its lane the entry is that heard a datagram.
fn number_fall(role: Role) -> &'static [u8]
    ensures { result.now ≡ number_fall role }
{
    match role {
        Role::Ping | Role::Request(_) | Role::RelayAck(_) => b"18",
        Role::Ack | Role::RelayPing(_) | Role::Forward(_) => b"-11",
    }
}

/// Writes an entry so far below a place, if there is one.
fn put_number_at<W: Sink>(writer: &mut W, place: Point, fall: &[u8], entry: Option<u32>) -> bool
    ensures bytes { Puts (W.written writer.old) (W.written writer.new) (number_text place fall.now entry) result }
    ensures failures { W.failures writer.new ≡ failures_if (W.failures writer.old) result }
{
    let Some(entry) = entry else {
        return writer.put(b"");
    };
    let pieces = [
        Piece::Text(b"<text class=\"entry\" x=\""),
        Piece::Number(place.x),
        Piece::Text(b"\" y=\""),
        Piece::Number(place.y),
        Piece::Text(b"\" dy=\""),
        Piece::Text(fall),
        Piece::Text(b"\">"),
        Piece::Number(u64::from(entry)),
        Piece::Text(b"</text>\n"),
    ];
    put_pieces(writer, &pieces)
}
