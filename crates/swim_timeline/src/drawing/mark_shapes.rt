//! The marks of a picture.

use crate::picture_marks::{MarkKind, PictureMark};
use crate::rows::place_of;
use crate::scale::Scale;
use std::alloc::AllocError;
use swim_history::Relay;
use swim_wire::Id;

/// How far above its line the ack of a member stands.
const ACK_RISE: u64 = 12;

/// All marks, oldest first.
pub(crate) fn draw_marks(
    text: &mut String,
    marks: &[PictureMark],
    members: &[Id],
    scale: &Scale,
) -> Result<(), AllocError> {
    for mark in marks {
        if let Some(line) = line_of(members, mark.member, scale) {
            draw_mark(text, mark, line, members, scale)?;
        }
    }
    Ok(())
}

/// Where the line of a member stands.
fn line_of(members: &[Id], member: Id, scale: &Scale) -> Option<u64> {
    Some(scale.line(place_of(members, member)?))
}

fn draw_mark(
    text: &mut String,
    mark: &PictureMark,
    line: u64,
    members: &[Id],
    scale: &Scale,
) -> Result<(), AllocError> {
    match &mark.kind {
        MarkKind::Probed(_) => draw(text, "probe", scale.at(mark.tick), line, mark),
        MarkKind::Asked(_, relays) => {
            draw_requests(text, mark, relays.as_slice(), members, scale)?;
            draw(text, "ask", scale.at(mark.tick), line, mark)
        }
        MarkKind::Heard(_) => {
            let above = line.saturating_sub(ACK_RISE);
            draw(text, "ack", scale.heard_at(mark.tick), above, mark)
        }
        MarkKind::Judged(_) => draw(text, "judgement", scale.at(mark.tick), line, mark),
        MarkKind::Joined => draw(text, "join", scale.joined_at(mark.tick), line, mark),
        MarkKind::Removed => draw(text, "removal", scale.removed_at(mark.tick), line, mark),
    }
}

/// The shape of a mark, and what it says.
fn draw(
    text: &mut String,
    shape: &str,
    x: u64,
    y: u64,
    mark: &PictureMark,
) -> Result<(), AllocError> {
    write!(
        text,
        r##"<use class="{shape}" href="#{shape}" x="{x}" y="{y}" role="img"><title>"##
    )?;
    write_words(text, mark)?;
    text.push_str("</title></use>\n")
}

fn write_words(text: &mut String, mark: &PictureMark) -> Result<(), AllocError> {
    let member = mark.member.get();
    let tick = mark.tick;
    match &mark.kind {
        MarkKind::Probed(number) => write!(text, "probe of {member}, period {number}")?,
        MarkKind::Asked(number, relays) => {
            write!(text, "no ack of {member} by the timeout, period {number}: ")?;
            write_asked(text, relays.as_slice())?;
        }
        MarkKind::Heard(number) => write!(text, "ack of {member}, period {number}")?,
        MarkKind::Judged(number) => write!(text, "{member} judged failed, period {number}")?,
        MarkKind::Joined => write!(text, "{member} joined")?,
        MarkKind::Removed => write!(text, "{member} removed")?,
    }
    write!(text, ", tick {tick}")
}

/// Which relays were asked.
fn write_asked(text: &mut String, relays: &[Relay]) -> Result<(), AllocError> {
    let [first, others @ ..] = relays else {
        return text.push_str("nobody asked");
    };
    let id = first.id.get();
    write!(text, "{id}")?;
    for relay in others {
        let id = relay.id.get();
        write!(text, ", {id}")?;
    }
    text.push_str(" asked")
}

/// The requests to relays: a line from the lane of the aim to each relay's, and the relay's mark.
fn draw_requests(
    text: &mut String,
    mark: &PictureMark,
    relays: &[Relay],
    members: &[Id],
    scale: &Scale,
) -> Result<(), AllocError> {
    let Some(from) = line_of(members, mark.member, scale) else {
        return Ok(());
    };
    let x = scale.at(mark.tick);
    for relay in relays {
        if let Some(to) = line_of(members, relay.id, scale) {
            draw_request(text, mark, relay.id, x, from, to)?;
        }
    }
    Ok(())
}

fn draw_request(
    text: &mut String,
    mark: &PictureMark,
    relay: Id,
    x: u64,
    from: u64,
    to: u64,
) -> Result<(), AllocError> {
    let relay = relay.get();
    let member = mark.member.get();
    let tick = mark.tick;
    write!(text, r##"<path class="asks" d="M{x} {from}V{to}"/>"##)?;
    write!(
        text,
        r##"<use class="relay" href="#relay" x="{x}" y="{to}" role="img">"##
    )?;
    write!(
        text,
        "<title>{relay} asked to ping {member}, tick {tick}</title></use>\n"
    )
}
