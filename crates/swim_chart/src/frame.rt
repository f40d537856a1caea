//! What stands round the strokes, written to a sink. Each function returns whether the sink took its text.

ghost use Rattle.std.specs.Prelude.{◌≡◌, ◌++◌};
ghost use Rattle.swim_text.specs.Streams.{Puts, failures_if};
ghost use Rattle.swim_chart.specs.Frame.{end_text, escaped, head_text, lane_text, lanes_text, place_text, root_text};
ghost use Rattle.swim_chart.specs.Frame.{titled_text};
ghost use Rattle.swim_chart.specs.declared.style.TheConstants.{LEGEND};

use crate::charts::Lane;
use crate::escapes::put_escaped;
use crate::spots::{bottom, height, period_end, right, spot, width};
use crate::style::{LEGEND, STYLE};
use swim_text::Sink;
use swim_trace::ProbeName;
use swim_wire::{Piece, put_pieces};

/// Writes the head of the picture, with that number of relays and that conclusion.
pub(crate) fn put_head<W: Sink>(
    writer: &mut W,
    relays: u32,
    probe: &ProbeName,
    conclusion: &str,
) -> bool
    ensures bytes { Puts (W.written writer.old) (W.written writer.new)
        (head_text relays probe.now conclusion.now) result }
    ensures failures { W.failures writer.new ≡ failures_if (W.failures writer.old) result }
{
    if !put_root(writer, relays) {
        return false;
    }
    if !put_titled(writer, probe) {
        return false;
    }
    put_conclusion(writer, conclusion.as_bytes())
}

/// Writes the root of the picture, with its size.
fn put_root<W: Sink>(writer: &mut W, relays: u32) -> bool
    ensures bytes { Puts (W.written writer.old) (W.written writer.new) (root_text relays) result }
    ensures failures { W.failures writer.new ≡ failures_if (W.failures writer.old) result }
{
    let wide = width(relays);
    let high = height(relays);
    let pieces = [
        Piece::Text(b"<svg xmlns=\"http://www.w3.org/2000/svg\" width=\""),
        Piece::Number(wide),
        Piece::Text(b"\" height=\""),
        Piece::Number(high),
        Piece::Text(b"\" viewBox=\"0 0 "),
        Piece::Number(wide),
        Piece::Text(b" "),
        Piece::Number(high),
        Piece::Text(b"\" lang=\"en\" role=\"graphics-document document\""),
        Piece::Text(b" aria-labelledby=\"title\" aria-describedby=\"desc\">\n"),
    ];
    put_pieces(writer, &pieces)
}

/// Writes the title of the picture, how it looks, and its heading.
fn put_titled<W: Sink>(writer: &mut W, probe: &ProbeName) -> bool
    ensures bytes { Puts (W.written writer.old) (W.written writer.new) (titled_text probe.now) result }
    ensures failures { W.failures writer.new ≡ failures_if (W.failures writer.old) result }
{
    let initiator = u64::from(probe.initiator.get());
    let target = u64::from(probe.target.get());
    let pieces = [
        Piece::Text(b"<title id=\"title\">Probe of member "),
        Piece::Number(target),
        Piece::Text(b" by member "),
        Piece::Number(initiator),
        Piece::Text(b", period "),
        Piece::Number(probe.number),
        Piece::Text(b"</title>\n"),
        Piece::Text(STYLE.as_bytes()),
        Piece::Text(b"<text class=\"heading\" x=\"24\" y=\"32\">Member "),
        Piece::Number(initiator),
        Piece::Text(b" judged member "),
        Piece::Number(target),
        Piece::Text(b" failed in period "),
        Piece::Number(probe.number),
        Piece::Text(b"</text>\n<text x=\"24\" y=\"56\">"),
    ];
    put_pieces(writer, &pieces)
}

/// Writes what is concluded, and the legend.
fn put_conclusion<W: Sink>(writer: &mut W, conclusion: &[u8]) -> bool
    ensures bytes { Puts (W.written writer.old) (W.written writer.new) (escaped conclusion.now ++ LEGEND.now) result }
    ensures failures { W.failures writer.new ≡ failures_if (W.failures writer.old) result }
{
    if !put_escaped(writer, conclusion) {
        return false;
    }
    writer.put(LEGEND.as_bytes())
}

/// Writes the lanes, with that number of relays.
pub(crate) fn put_lanes<W: Sink>(writer: &mut W, relays: u32, lanes: &[Lane]) -> bool
    ensures bytes { Puts (W.written writer.old) (W.written writer.new) (lanes_text relays lanes.now) result }
    ensures failures { W.failures writer.new ≡ failures_if (W.failures writer.old) result }
{
    let [first, others @ ..] = lanes else {
        return writer.put(b"");
    };
    if !put_lane(writer, relays, first) {
        return false;
    }
    put_lanes(writer, relays, others)
}

/// Writes a lane, with its member and what that one is in the probe.
fn put_lane<W: Sink>(writer: &mut W, relays: u32, lane: &Lane) -> bool
    ensures bytes { Puts (W.written writer.old) (W.written writer.new) (lane_text relays lane.now) result }
    ensures failures { W.failures writer.new ≡ failures_if (W.failures writer.old) result }
{
    let y = spot(0, u64::from(lane.place)).y;
    let pieces = [
        Piece::Text(b"<path class=\"lane\" d=\"M120 "),
        Piece::Number(y),
        Piece::Text(b"H"),
        Piece::Number(right(relays)),
        Piece::Text(b"\"/><text class=\"id\" x=\"24\" y=\""),
        Piece::Number(y),
        Piece::Text(b"\">"),
        Piece::Number(u64::from(lane.member.get())),
        Piece::Text(b"</text><text class=\"part\" x=\"24\" y=\""),
        Piece::Number(y),
        Piece::Text(b"\" dy=\"15\">"),
        Piece::Text(place_name(lane.place)),
        Piece::Text(b"</text>\n"),
    ];
    put_pieces(writer, &pieces)
}

/// Returns what the member of a lane is in the probe.
fn place_name(place: u32) -> &'static [u8]
    ensures { result.now ≡ place_text place }
{
    match place {
        0 => b"initiator",
        1 => b"target",
        _ => b"relay",
    }
}

/// Writes where the period ends, and the entry that judged the target then.
pub(crate) fn put_end<W: Sink>(writer: &mut W, relays: u32, judged: u32) -> bool
    ensures bytes { Puts (W.written writer.old) (W.written writer.new) (end_text relays judged) result }
    ensures failures { W.failures writer.new ≡ failures_if (W.failures writer.old) result }
{
    let x = period_end(relays);
    let pieces = [
        Piece::Text(b"<path class=\"end\" d=\"M"),
        Piece::Number(x),
        Piece::Text(b" 160V"),
        Piece::Number(bottom(relays)),
        Piece::Text(b"\"/><text class=\"entry\" x=\""),
        Piece::Number(x),
        Piece::Text(b"\" y=\"154\">judged at entry "),
        Piece::Number(u64::from(judged)),
        Piece::Text(b"</text>\n</g>\n<g id=\"datagrams\">\n"),
    ];
    put_pieces(writer, &pieces)
}
