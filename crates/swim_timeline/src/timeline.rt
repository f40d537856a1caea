//! The picture of a journal.

ghost use Rattle.std.specs.Prelude.{◌≡◌, ◌-◌, min, length, IfOk, OnErr};
ghost use Rattle.swim_text.specs.Streams.{failures_if};
ghost use Rattle.swim_history.specs.Clock.{ticks};
ghost use Rattle.swim_timeline.specs.Shown.{Shows, before_tick, within};

use crate::drawing::clock_line::{ClockLabel, clock_height, draw_clock, labels_of};
use crate::drawing::gaps::draw_gaps;
use crate::drawing::head::{Cut, LeftOut, draw_head, head_height};
use crate::drawing::lane_lines::{draw_lanes, draw_lines};
use crate::drawing::mark_shapes::draw_marks;
use crate::drawing::ruler::draw_ruler;
use crate::pictures::{Picture, show};
use crate::scale::{LEFT, Scale};
use crate::spans::Span;
use crate::starts::starts_in;
use crate::times::Times;
use std::alloc::{AllocError, Global};
use swim_history::Journal;
use swim_text::Sink;
use swim_wire::Id;

/// Puts the picture of these ticks of a journal, and answers whether the writer took all of it. The picture is an SVG
/// that stands alone: a lane for each member, and from left to right what happened to it at which tick. Where `times`
/// tells when periods began, it has a line with these times. It says how much of the run it leaves out. `Err` only where memory was refused; then nothing was put.
pub fn put_timeline<W: Sink>(
    alloc: Global,
    journal: &Journal,
    span: Span,
    times: &Times,
    writer: &mut W,
) -> Result<bool, AllocError>
    ensures failures { IfOk result (λ done. W.failures writer.new ≡ failures_if (W.failures writer.old) done) }
    ensures refused { OnErr result (writer.new ≡ writer.old) }
{
    let text = timeline(alloc, journal, span, times)?;
    Ok(writer.put(text.as_str().as_bytes()))
}

/// The text of the picture.
fn timeline(
    alloc: Global,
    journal: &Journal,
    span: Span,
    times: &Times,
) -> Result<String, AllocError> {
    let shown = show(alloc, journal, span)?;
    let members: Vec<Id> = shown.lanes.keys().copied().collect(alloc)?;
    let cut = cut_of(journal, &shown, span);
    let ticks = shown
        .ticks
        .saturating_sub(cut.before.ticks)
        .saturating_sub(cut.behind.ticks);
    let opening = journal.opening();
    let height = head_height(&cut);
    let scale = Scale::new(opening, cut.before.ticks, ticks, members.len(), height);
    let labels = clock_labels(alloc, journal, span, times, &scale)?;
    let scale = scale.lowered(clock_height(labels.as_slice()));
    let mut text = String::new(alloc);
    draw_head(&mut text, journal, &shown, &cut, &scale)?;
    draw_body(
        alloc,
        &mut text,
        journal,
        &shown,
        members.as_slice(),
        labels.as_slice(),
        &scale,
    )?;
    draw_end(&mut text, &cut, &scale)?;
    Ok(text)
}

/// The labels of the clock line.
fn clock_labels(
    alloc: Global,
    journal: &Journal,
    span: Span,
    times: &Times,
    scale: &Scale,
) -> Result<Vec<ClockLabel>, AllocError> {
    if times.is_empty() {
        return Ok(Vec::new(alloc));
    }
    let starts = starts_in(alloc, journal, span, times)?;
    labels_of(alloc, starts.as_slice(), scale)
}

/// What a picture of these ticks leaves out.
fn cut_of(journal: &Journal, shown: &Picture, span: Span) -> Cut
    requires { Shows journal.now.opening journal.now.past span.first span.until shown.now }
    ensures ticks_before { result.before.ticks ≡ min (ticks journal.now.past) (span.first - 1) }
    ensures entries_before { result.before.entries ≡ length (before_tick span.first journal.now.past) }
    ensures ticks_behind { result.behind.ticks ≡ ticks journal.now.past - span.until }
    ensures entries_behind { result.behind.entries ≡ length journal.now.past - length (within span.until journal.now.past) }
{
    let ticks = u64::from(shown.ticks).saturating_sub(span.until);
    Cut {
        before: LeftOut {
            ticks: shown.ticks.min(span.first.saturating_sub(1)),
            entries: shown.before.entries,
        },
        behind: LeftOut {
            ticks: ticks as u32,
            entries: journal.len().saturating_sub(shown.entries),
        },
    }
}

fn draw_body(
    alloc: Global,
    text: &mut String,
    journal: &Journal,
    shown: &Picture,
    members: &[Id],
    labels: &[ClockLabel],
    scale: &Scale,
) -> Result<(), AllocError> {
    let rows = shown.before.rows.as_slice();
    let marks = shown.marks.as_slice();
    text.push_str("<g aria-hidden=\"true\">\n")?;
    draw_lanes(text, &shown.lanes, scale)?;
    draw_ruler(text, scale)?;
    draw_lines(alloc, text, rows, marks, members, scale)?;
    text.push_str("</g>\n")?;
    draw_clock(text, labels, scale)?;
    text.push_str("<g id=\"gaps\">\n")?;
    draw_gaps(text, journal, members, scale)?;
    text.push_str("</g>\n<g id=\"marks\">\n")?;
    draw_marks(text, marks, members, scale)?;
    text.push_str("</g>\n")
}

/// A line where the run is cut, on each side where it is, and the end of the text.
fn draw_end(text: &mut String, cut: &Cut, scale: &Scale) -> Result<(), AllocError> {
    if !cut.before.is_none() {
        draw_cut(text, LEFT, scale)?;
    }
    if !cut.behind.is_none() {
        draw_cut(text, scale.right(), scale)?;
    }
    text.push_str("</svg>\n")
}

/// A line where the run is cut.
fn draw_cut(text: &mut String, x: u64, scale: &Scale) -> Result<(), AllocError> {
    let top = scale.top();
    let bottom = scale.bottom();
    write!(text, "<path class=\"cut\" d=\"M{x} {top}V{bottom}\"/>\n")
}
