//! The strokes of datagrams, written to a sink. Each function returns whether the sink took its text.

ghost use Rattle.std.specs.Prelude.{◌≡◌};
ghost use Rattle.swim_text.specs.Streams.{Puts, failures_if};
ghost use Rattle.swim_chart.specs.Arrows.{arrow_text, arrows_text, entry_text, fate_text, first_half, is_shown};
ghost use Rattle.swim_chart.specs.Arrows.{kind_text, marked_text, opening_text, path_text, second_half, shown_text};
ghost use Rattle.swim_chart.specs.Arrows.{stroke_text, words_text};

use crate::charts::Arrow;
use crate::spots::{Line, Point, line_of, middle};
use swim_text::{Sink, put_numbered};
use swim_trace::Fate;
use swim_wire::{Kind, Piece, put_pieces};

/// Writes the strokes of datagrams, with that number of relays.
pub(crate) fn put_arrows<W: Sink>(writer: &mut W, relays: u32, arrows: &[Arrow]) -> bool
    ensures bytes { Puts (W.written writer.old) (W.written writer.new) (arrows_text relays arrows.now) result }
    ensures failures { W.failures writer.new ≡ failures_if (W.failures writer.old) result }
{
    let [first, others @ ..] = arrows else {
        return writer.put(b"");
    };
    if !put_arrow(writer, relays, first) {
        return false;
    }
    put_arrows(writer, relays, others)
}

/// Writes the stroke of a datagram, if it has one.
fn put_arrow<W: Sink>(writer: &mut W, relays: u32, arrow: &Arrow) -> bool
    ensures bytes { Puts (W.written writer.old) (W.written writer.new) (arrow_text relays arrow.now) result }
    ensures failures { W.failures writer.new ≡ failures_if (W.failures writer.old) result }
{
    if is_shown(arrow.way.fate) {
        put_shown(writer, relays, arrow)
    } else {
        writer.put(b"")
    }
}

/// Returns whether a datagram of that fate has a stroke.
pub(crate) fn is_shown(fate: Fate) -> bool
    ensures { result ≡ is_shown fate }
{
    match fate {
        Fate::Passed | Fate::Dropped | Fate::Lost | Fate::Contradicted | Fate::Untold => true,
        Fate::Unsent => false,
    }
}

/// Writes the words and the stroke of a datagram.
fn put_shown<W: Sink>(writer: &mut W, relays: u32, arrow: &Arrow) -> bool
    ensures bytes { Puts (W.written writer.old) (W.written writer.new) (shown_text relays arrow.now) result }
    ensures failures { W.failures writer.new ≡ failures_if (W.failures writer.old) result }
{
    if !put_words(writer, arrow) {
        return false;
    }
    put_stroke(writer, arrow.way.fate, line_of(relays, arrow))
}

/// Writes what became of a datagram.
fn put_words<W: Sink>(writer: &mut W, arrow: &Arrow) -> bool
    ensures bytes { Puts (W.written writer.old) (W.written writer.new) (words_text arrow.now) result }
    ensures failures { W.failures writer.new ≡ failures_if (W.failures writer.old) result }
{
    if !put_opening(writer, arrow) {
        return false;
    }
    if !put_entry(writer, b", sent at entry ", arrow.sent) {
        return false;
    }
    put_entry(writer, b", heard at entry ", arrow.heard)
}

/// Writes what opens a stroke.
fn put_opening<W: Sink>(writer: &mut W, arrow: &Arrow) -> bool
    ensures bytes { Puts (W.written writer.old) (W.written writer.new) (opening_text arrow.now) result }
    ensures failures { W.failures writer.new ≡ failures_if (W.failures writer.old) result }
{
    let leg = &arrow.way.leg;
    let kind = kind_name(leg.kind);
    let pieces = [
        Piece::Text(b"<g class=\""),
        Piece::Text(kind),
        Piece::Text(b"\" role=\"img\"><title>"),
        Piece::Text(kind),
        Piece::Text(b" "),
        Piece::Number(u64::from(leg.from.get())),
        Piece::Text(b" -> "),
        Piece::Number(u64::from(leg.to.get())),
        Piece::Text(b" ("),
        Piece::Text(fate_name(arrow.is_late, arrow.way.fate)),
        Piece::Text(b")"),
    ];
    put_pieces(writer, &pieces)
}

/// Returns the name of a kind.
pub(crate) fn kind_name(kind: Kind) -> &'static [u8]
    ensures { result.now ≡ kind_text kind }
{
    match kind {
        Kind::Ping => b"ping",
        Kind::PingReq => b"ping-req",
        Kind::Ack => b"ack",
    }
}

/// Returns the words for a fate.
fn fate_name(is_late: bool, fate: Fate) -> &'static [u8]
    ensures { result.now ≡ fate_text is_late fate }
{
    match fate {
        Fate::Passed => b"arrived",
        Fate::Dropped if is_late => b"late",
        Fate::Dropped => b"ignored",
        Fate::Lost => b"lost",
        Fate::Unsent => b"not sent",
        Fate::Contradicted => b"never sent",
        Fate::Untold => b"unknown",
    }
}

/// Writes an entry after a word, if there is one.
fn put_entry<W: Sink>(writer: &mut W, word: &[u8], entry: Option<u32>) -> bool
    ensures bytes { Puts (W.written writer.old) (W.written writer.new) (entry_text word.now entry) result }
    ensures failures { W.failures writer.new ≡ failures_if (W.failures writer.old) result }
{
    match entry {
        Some(entry) => put_numbered(writer, word, u64::from(entry)),
        None => writer.put(b""),
    }
}

/// Writes the stroke of a datagram of that fate.
fn put_stroke<W: Sink>(writer: &mut W, fate: Fate, line: Line) -> bool
    ensures bytes { Puts (W.written writer.old) (W.written writer.new) (stroke_text fate line) result }
    ensures failures { W.failures writer.new ≡ failures_if (W.failures writer.old) result }
{
    match fate {
        Fate::Passed => put_path(writer, b"whole", line),
        Fate::Dropped => put_marked(writer, b"whole", line, b"ignored", line.to),
        Fate::Lost => put_marked(writer, b"half", first_half(line), b"lost", middle(line)),
        Fate::Unsent => writer.put(b""),
        Fate::Contradicted => {
            put_marked(writer, b"whole", second_half(line), b"unsent", middle(line))
        }
        Fate::Untold => put_path(writer, b"unknown", line),
    }
}

/// Returns a line up to its middle.
fn first_half(line: Line) -> Line
    ensures { result ≡ first_half line }
{
    Line {
        from: line.from,
        to: middle(line),
    }
}

/// Returns a line from its middle on.
fn second_half(line: Line) -> Line
    ensures { result ≡ second_half line }
{
    Line {
        from: middle(line),
        to: line.to,
    }
}

/// Writes a line of that shape.
fn put_path<W: Sink>(writer: &mut W, shape: &[u8], line: Line) -> bool
    ensures bytes { Puts (W.written writer.old) (W.written writer.new) (path_text shape.now line) result }
    ensures failures { W.failures writer.new ≡ failures_if (W.failures writer.old) result }
{
    let pieces = [
        Piece::Text(b"</title><path class=\""),
        Piece::Text(shape),
        Piece::Text(b"\" d=\"M"),
        Piece::Number(line.from.x),
        Piece::Text(b" "),
        Piece::Number(line.from.y),
        Piece::Text(b"L"),
        Piece::Number(line.to.x),
        Piece::Text(b" "),
        Piece::Number(line.to.y),
        Piece::Text(b"\"/></g>\n"),
    ];
    put_pieces(writer, &pieces)
}

/// Writes a line of that shape, and a mark on it.
fn put_marked<'t, W: Sink>(
    writer: &mut W,
    shape: &'t [u8],
    line: Line,
    mark: &'t [u8],
    place: Point,
) -> bool
    ensures bytes { Puts (W.written writer.old) (W.written writer.new)
        (marked_text shape.now line mark.now place) result }
    ensures failures { W.failures writer.new ≡ failures_if (W.failures writer.old) result }
{
    let pieces = [
        Piece::Text(b"</title><path class=\""),
        Piece::Text(shape),
        Piece::Text(b"\" d=\"M"),
        Piece::Number(line.from.x),
        Piece::Text(b" "),
        Piece::Number(line.from.y),
        Piece::Text(b"L"),
        Piece::Number(line.to.x),
        Piece::Text(b" "),
        Piece::Number(line.to.y),
        Piece::Text(b"\"/><use class=\""),
        Piece::Text(mark),
        Piece::Text(b"\" href=\"#"),
        Piece::Text(mark),
        Piece::Text(b"\" x=\""),
        Piece::Number(place.x),
        Piece::Text(b"\" y=\""),
        Piece::Number(place.y),
        Piece::Text(b"\"/></g>\n"),
    ];
    put_pieces(writer, &pieces)
}
