//! The widest gap of each member, and how wide it may be.

ghost use Rattle.std.specs.Prelude.{◌<◌, ◌^◌};

use crate::scale::Scale;
use std::alloc::AllocError;
use swim_history::{Gap, Journal};
use swim_wire::Id;

/// How far below the line of a member its widest gap stands, and how far below the middle of that its numbers.
const FALL: u64 = 14;

const NUMBERS_FALL: u64 = 12;

/// The widest gap of each member, where both of its probes are shown.
pub(crate) fn draw_gaps(
    text: &mut String,
    journal: &Journal,
    members: &[Id],
    scale: &Scale,
) -> Result<(), AllocError> {
    for (lane, member) in members.iter().enumerate() {
        if let Some(gap) = journal.widest_gap(*member) {
            draw_gap(text, *member, gap, scale.line(lane), scale)?;
        }
    }
    Ok(())
}

fn draw_gap(
    text: &mut String,
    member: Id,
    gap: Gap,
    line: u64,
    scale: &Scale,
) -> Result<(), AllocError>
    requires { line < 2 ^ 56 }
{
    let (Some(from), Some(to)) = (scale.start(gap.a), scale.start(gap.b)) else {
        return Ok(());
    };
    let y = line + FALL;
    let end = scale.right().min(reach(from, bound_of(gap), scale));
    write!(text, "<path class=\"reach\" d=\"M{to} {y}H{end}\"/>")?;
    let upper = y - 3;
    let lower = y + 3;
    write!(
        text,
        "<path class=\"gap\" d=\"M{from} {upper}V{lower}M{to} {upper}V{lower}M{from} {y}H{to}\""
    )?;
    text.push_str(" role=\"img\"><title>")?;
    write_words(text, member, gap)?;
    text.push_str("</title></path>")?;
    write_numbers(text, gap, (from + to) / 2, y + NUMBERS_FALL)
}

/// How many periods the gap might be wide.
fn bound_of(gap: Gap) -> u64 {
    gap.n.saturating_mul(2).saturating_sub(1)
}

/// How many periods it is wide.
fn width_of(gap: Gap) -> u64 {
    gap.b.saturating_sub(gap.a)
}

/// Where so many periods end that begin there.
fn reach(from: u64, periods: u64, scale: &Scale) -> u64 {
    from.saturating_add(periods.saturating_mul(scale.period_width()))
}

fn write_words(text: &mut String, member: Id, gap: Gap) -> Result<(), AllocError> {
    let member = member.get();
    let width = width_of(gap);
    let bound = bound_of(gap);
    let from = gap.a;
    let to = gap.b;
    write!(
        text,
        "widest gap of {member}: {width} periods, from {from} to {to}; "
    )?;
    write!(text, "it might be {bound}")
}

fn write_numbers(text: &mut String, gap: Gap, x: u64, y: u64) -> Result<(), AllocError> {
    let width = width_of(gap);
    let bound = bound_of(gap);
    write!(
        text,
        r##"<text class="bound" x="{x}" y="{y}" text-anchor="middle">"##
    )?;
    write!(text, "{width} of {bound}</text>\n")
}
