//! The clock line of a picture: when periods began, in UTC.

ghost use Rattle.std.specs.Prelude.{◌<◌, ◌^◌};

use crate::drawing::ruler::step_for;
use crate::scale::{NAMES, Scale};
use crate::starts::TimedStart;
use crate::times::UtcTime;
use std::alloc::{AllocError, Global};

/// How much higher a head is that has room for the line.
const HEIGHT: u16 = 30;
/// How wide a character of a label is at the most, and what is left free between two labels.
const CHARACTER: u64 = 7;

const SPACE: u64 = 12;
/// How many characters a date has, which is longer than a time of day without milliseconds, and a time with them.
const DATE: u64 = 10;

const LONG_TIME: u64 = 12;
/// How far above the lanes times stand, and dates.
const TIME_RISE: u64 = 41;

const DATE_RISE: u64 = 56;

/// When a period began, at the place of its start.
#[derive(Clone, Copy)]
pub(crate) struct ClockLabel {
    x: u64,
    tick: u32,
    utc: UtcTime,
    /// Whether the label before it is of another day, or there is none.
    has_date: bool,
}

/// The labels of these starts, oldest first: of as many as have room, and have a time in UTC.
pub(crate) fn labels_of(
    alloc: Global,
    starts: &[TimedStart],
    scale: &Scale,
) -> Result<Vec<ClockLabel>, AllocError> {
    let mut labels: Vec<ClockLabel> = Vec::new(alloc);
    let width = label_width(starts);
    let step = step_for(width + SPACE, scale);
    let mut next = 0u32;
    for start in starts {
        let period = scale.period_of(start.tick);
        if period >= next
            && let Some(label) = label_of(start, labels.last(), width / 2, scale)
        {
            labels.push(label)?;
            next = period.saturating_add(step);
        }
    }
    Ok(labels)
}

/// How much room these labels need below the head.
pub(crate) fn clock_height(labels: &[ClockLabel]) -> u16 {
    if labels.is_empty() { 0 } else { HEIGHT }
}

/// How wide a label is at the most.
fn label_width(starts: &[TimedStart]) -> u64
    ensures { result < 2 ^ 16 }
{
    let is_long = starts.iter().any(|start| start.time.milliseconds.is_some());
    CHARACTER * if is_long { LONG_TIME } else { DATE }
}

/// The label of a start behind another one, if it has a time in UTC, and room for its half at the right.
fn label_of(
    start: &TimedStart,
    before: Option<&ClockLabel>,
    half: u64,
    scale: &Scale,
) -> Option<ClockLabel>
    requires { half < 2 ^ 16 }
{
    let utc = start.time.utc()?;
    let x = scale.at(start.tick);
    if x + half > scale.width() {
        return None;
    }
    Some(ClockLabel {
        x,
        tick: start.tick,
        utc,
        has_date: match before {
            Some(before) => before.utc.date() != utc.date(),
            None => true,
        },
    })
}

/// Draws the line, if there are labels.
pub(crate) fn draw_clock(
    text: &mut String,
    labels: &[ClockLabel],
    scale: &Scale,
) -> Result<(), AllocError> {
    if labels.is_empty() {
        return Ok(());
    }
    let y = scale.top().saturating_sub(TIME_RISE);
    write!(
        text,
        r##"<text class="tick clock" x="{NAMES}" y="{y}" aria-hidden="true">UTC</text>"##
    )?;
    text.push_str("\n<g id=\"clock\" text-anchor=\"middle\">\n")?;
    for label in labels {
        draw_label(text, label, scale)?;
    }
    text.push_str("</g>\n")
}

/// The time of a label, with its words, and its date above it, if it has one.
fn draw_label(text: &mut String, label: &ClockLabel, scale: &Scale) -> Result<(), AllocError> {
    let x = label.x;
    if label.has_date {
        let y = scale.top().saturating_sub(DATE_RISE);
        let date = label.utc.date();
        write!(
            text,
            r##"<text class="tick date" x="{x}" y="{y}" aria-hidden="true">{date}</text>"##
        )?;
    }
    let y = scale.top().saturating_sub(TIME_RISE);
    write!(
        text,
        r##"<text class="tick clock" x="{x}" y="{y}" role="img"><title>"##
    )?;
    let utc = label.utc;
    let tick = label.tick;
    let time = label.utc.time_of_day();
    write!(
        text,
        "a period began at {utc}, tick {tick}</title>{time}</text>\n"
    )
}
