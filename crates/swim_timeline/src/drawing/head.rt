//! The head of a picture: what it is of, what is left out of it, and what its marks mean.

ghost use Rattle.std.specs.Prelude.{◌<◌, ◌^◌};

use crate::picture_marks::{MarkKind, PictureMark};
use crate::pictures::Picture;
use crate::scale::{NAMES, Scale};
use crate::style::STYLE;
use std::alloc::AllocError;
use swim_history::{Journal, Opening};
use swim_wire::Version;

/// How high the head is, and how much higher with a remark.
const HEAD: u16 = 160;

const REMARK: u16 = 20;
/// How far above the end of the head the legend stands, how far apart its entries are, and how many stand side by side.
const LEGEND_RISE: u64 = 78;

const LEGEND_COLUMN: u64 = 176;

const LEGEND_ROW: u64 = 24;

const LEGEND_COLUMNS: usize = 5;

/// The shapes of a picture, and what they mean.
const LEGEND: [(&str, &str); 10] = [
    ("probe", "probe"),
    ("ack", "ack heard"),
    ("ask", "no ack: relays asked"),
    ("relay", "asked as a relay"),
    ("judgement", "judged failed"),
    ("join", "joined"),
    ("removal", "removed"),
    ("listed", "listed"),
    ("failed", "failed"),
    ("gap", "widest gap, dotted to its bound"),
];

/// What of a run a picture leaves out.
#[derive(Clone, Copy)]
pub(crate) struct Cut {
    pub before: LeftOut,
    pub behind: LeftOut,
}

impl Cut {
    /// Whether nothing is left out.
    pub(crate) fn is_none(&self) -> bool {
        self.before.is_none() && self.behind.is_none()
    }
}

/// What is left out on one side of a picture.
#[derive(Clone, Copy)]
pub(crate) struct LeftOut {
    pub ticks: u32,
    pub entries: u32,
}

impl LeftOut {
    /// Whether nothing is left out.
    pub(crate) fn is_none(&self) -> bool {
        self.entries == 0
    }
}

/// How high the head of a picture is that leaves this out, and has no clock line.
pub(crate) fn head_height(cut: &Cut) -> u16 {
    if cut.is_none() { HEAD } else { HEAD + REMARK }
}

/// The head of the picture of a journal.
pub(crate) fn draw_head(
    text: &mut String,
    journal: &Journal,
    shown: &Picture,
    cut: &Cut,
    scale: &Scale,
) -> Result<(), AllocError> {
    open(text, scale)?;
    let me = journal.opening().me().get();
    write!(
        text,
        "<title id=\"title\">Run of member {me}</title>\n<desc id=\"desc\">"
    )?;
    describe(text, shown.marks.as_slice())?;
    write_cut(text, cut)?;
    text.push_str("</desc>\n")?;
    text.push_str(STYLE)?;
    text.push_str("<rect class=\"paper\" width=\"100%\" height=\"100%\"/>\n")?;
    put_heading(text, journal, shown)?;
    put_setting(text, journal.opening(), scale)?;
    put_remark(text, cut)?;
    put_legend(
        text,
        u64::from(head_height(cut)).saturating_sub(LEGEND_RISE),
    )
}

fn open(text: &mut String, scale: &Scale) -> Result<(), AllocError> {
    let width = scale.width();
    let height = scale.height();
    write!(
        text,
        r##"<svg xmlns="http://www.w3.org/2000/svg" width="{width}" height="{height}""##
    )?;
    write!(
        text,
        r##" viewBox="0 0 {width} {height}" lang="en" role="graphics-document document""##
    )?;
    text.push_str(" aria-labelledby=\"title\" aria-describedby=\"desc\">\n")
}

fn describe(text: &mut String, marks: &[PictureMark]) -> Result<(), AllocError> {
    text.push_str("Ticks run from left to right; each member has a lane. ")?;
    let probes = count(marks, |kind| matches!(kind, MarkKind::Probed(_)));
    let acks = count(marks, |kind| matches!(kind, MarkKind::Heard(_)));
    let asks = count(marks, |kind| matches!(kind, MarkKind::Asked(_, _)));
    write!(
        text,
        "Probes: {probes}. Acks heard: {acks}. Timeouts with no ack: {asks}. "
    )?;
    let judgements = count(marks, |kind| matches!(kind, MarkKind::Judged(_)));
    let joins = count(marks, |kind| matches!(kind, MarkKind::Joined));
    let removals = count(marks, |kind| matches!(kind, MarkKind::Removed));
    write!(
        text,
        "Judged failed: {judgements}. Joined: {joins}. Removed: {removals}."
    )
}

/// How many of the marks are of such a kind.
fn count<F: Fn(&MarkKind) -> bool>(marks: &[PictureMark], is_counted: F) -> usize
    requires { F.IsAlwaysCallable is_counted }
{
    marks.iter().filter(|mark| is_counted(&mark.kind)).count()
}

fn put_heading(text: &mut String, journal: &Journal, shown: &Picture) -> Result<(), AllocError> {
    let me = journal.opening().me().get();
    let ticks = shown.ticks;
    let entries = journal.len();
    write!(
        text,
        r##"<text class="heading" x="{NAMES}" y="32">Run of member {me}: "##
    )?;
    write!(text, "{ticks} ticks, {entries} entries</text>\n")
}

fn put_setting(text: &mut String, opening: &Opening, scale: &Scale) -> Result<(), AllocError> {
    let period = opening.period();
    let rtt = opening.rtt();
    let k = opening.k();
    write!(
        text,
        r##"<text x="{NAMES}" y="54">period {period} ticks, timeout {rtt}, relays {k}"##
    )?;
    put_version(text, opening.version())?;
    put_first_number(text, scale)?;
    text.push_str("</text>\n")
}

/// Which number the period has that is 1 in the ruler, where that isn't 1.
fn put_first_number(text: &mut String, scale: &Scale) -> Result<(), AllocError> {
    match scale.first_long_number() {
        None => Ok(()),
        Some(number) => write!(text, ", period 1 is {number}"),
    }
}

/// The version of this member's own messages, where it is the second.
fn put_version(text: &mut String, version: Version) -> Result<(), AllocError> {
    match version {
        Version::One => Ok(()),
        Version::Two => Ok(text.push_str(", wire 2")?),
    }
}

fn put_remark(text: &mut String, cut: &Cut) -> Result<(), AllocError> {
    if cut.is_none() {
        return Ok(());
    }
    write!(text, r##"<text class="remark" x="{NAMES}" y="74">"##)?;
    write_cut(text, cut)?;
    text.push_str("</text>\n")
}

/// What is left out, where something is.
fn write_cut(text: &mut String, cut: &Cut) -> Result<(), AllocError> {
    if cut.is_none() {
        return Ok(());
    }
    text.push_str(" Cut:")?;
    write_left(text, "first", &cut.before)?;
    if !cut.before.is_none() && !cut.behind.is_none() {
        text.push_str(" and")?;
    }
    write_left(text, "last", &cut.behind)?;
    text.push_str(" are left out.")
}

/// What is left out on one side, where something is.
fn write_left(text: &mut String, side: &str, left: &LeftOut) -> Result<(), AllocError> {
    if left.is_none() {
        return Ok(());
    }
    let ticks = left.ticks;
    let entries = left.entries;
    write!(text, " the {side} {ticks} ticks, and {entries} entries,")
}

fn put_legend(text: &mut String, y: u64) -> Result<(), AllocError>
    requires { y < 2 ^ 32 }
{
    text.push_str("<g id=\"legend\" aria-hidden=\"true\">\n")?;
    for (index, (shape, words)) in LEGEND.iter().enumerate() {
        let x = NAMES + 12 + LEGEND_COLUMN * (index % LEGEND_COLUMNS) as u64;
        let y = y + LEGEND_ROW * (index / LEGEND_COLUMNS) as u64;
        write!(
            text,
            r##"<use class="{shape}" href="#{shape}" x="{x}" y="{y}"/>"##
        )?;
        let x = x + 16;
        let y = y + 4;
        write!(text, r##"<text x="{x}" y="{y}">{words}</text>"##)?;
        text.push_str("\n")?;
    }
    text.push_str("</g>\n")
}
