//! The picture of a probe.

ghost use Rattle.std.specs.Prelude.{◌≡◌, ◌++◌};
ghost use Rattle.swim_text.specs.Streams.{Puts, failures_if};
ghost use Rattle.swim_chart.specs.Charts.{chart_text, drawn_text, noted_text};
ghost use Rattle.swim_chart.specs.Frame.{end_text, lanes_text};

use crate::arrows::put_arrows;
use crate::charts::{Arrow, Chart};
use crate::frame::{put_end, put_head, put_lanes};
use crate::notes::put_notes;
use swim_text::Sink;

/// Writes the picture of a probe as an SVG that stands alone: a lane for each member, and between the lanes an arrow
/// for each datagram, from left to right in the order in which one follows from the other. An arrow is broken off where
/// its datagram was lost, and one that came after the end of the period ends behind the line of that. Returns whether
/// the sink took all of it.
pub fn put_chart<W: Sink>(writer: &mut W, chart: &Chart<'_>) -> bool
    ensures bytes { Puts (W.written writer.old) (W.written writer.new) (chart_text chart.now) result }
    ensures failures { W.failures writer.new ≡ failures_if (W.failures writer.old) result }
{
    if !put_head(writer, chart.relays, &chart.probe, chart.conclusion) {
        return false;
    }
    put_body(writer, chart)
}

/// Writes what stands below the head.
fn put_body<W: Sink>(writer: &mut W, chart: &Chart<'_>) -> bool
    ensures bytes { Puts (W.written writer.old) (W.written writer.new)
        (lanes_text chart.now.relays chart.now.lanes.now
        ++ (end_text chart.now.relays chart.now.judged ++ drawn_text chart.now.relays chart.now.arrows.now)) result }
    ensures failures { W.failures writer.new ≡ failures_if (W.failures writer.old) result }
{
    if !put_lanes(writer, chart.relays, chart.lanes) {
        return false;
    }
    if !put_end(writer, chart.relays, chart.judged) {
        return false;
    }
    put_drawn(writer, chart.relays, chart.arrows)
}

/// Writes the strokes, and the texts beside them.
fn put_drawn<W: Sink>(writer: &mut W, relays: u32, arrows: &[Arrow]) -> bool
    ensures bytes { Puts (W.written writer.old) (W.written writer.new) (drawn_text relays arrows.now) result }
    ensures failures { W.failures writer.new ≡ failures_if (W.failures writer.old) result }
{
    if !put_arrows(writer, relays, arrows) {
        return false;
    }
    put_noted(writer, relays, arrows)
}

/// Writes the texts beside the strokes, and the end of the picture.
fn put_noted<W: Sink>(writer: &mut W, relays: u32, arrows: &[Arrow]) -> bool
    ensures bytes { Puts (W.written writer.old) (W.written writer.new) (noted_text relays arrows.now) result }
    ensures failures { W.failures writer.new ≡ failures_if (W.failures writer.old) result }
{
    if !writer.put(b"</g>\n<g aria-hidden=\"true\">\n") {
        return false;
    }
    if !put_notes(writer, relays, arrows) {
        return false;
    }
    writer.put(b"</g>\n</svg>\n")
}
