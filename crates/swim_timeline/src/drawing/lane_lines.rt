//! The lanes of a picture: who they are of, and from when to when the member was listed or failed.

use crate::lanes::Lanes;
use crate::picture_marks::{MarkKind, PictureMark};
use crate::rows::place_of;
use crate::scale::{LANE, LEFT, NAMES, Scale};
use std::alloc::{AllocError, Global};
use std::mem;
use swim_history::{Row, RowState};
use swim_wire::{Id, Peer};

/// After how many periods the names of the lanes stand again, and how far below the upper edges of their lanes.
const PERIODS_A_NAME: u32 = 20;

const NAME_FALL: u64 = 11;

/// How a member stands in the member table, and since where in the picture.
#[derive(Clone, Copy)]
enum LineStanding {
    Unknown,
    Listed(u64),
    Failed(u64),
}

/// The names of the lanes, with a ground below every second one.
pub(crate) fn draw_lanes(
    text: &mut String,
    lanes: &Lanes,
    scale: &Scale,
) -> Result<(), AllocError> {
    for (lane, (id, peer)) in lanes.iter().enumerate() {
        draw_lane(text, lane, *id, peer, scale)?;
        repeat_name(text, lane, *id, scale)?;
    }
    Ok(())
}

/// The name of a lane again and again, for those who look at a later part of a wide picture.
fn repeat_name(text: &mut String, lane: usize, id: Id, scale: &Scale) -> Result<(), AllocError> {
    let id = id.get();
    let y = scale.edge(lane) + NAME_FALL;
    for part in 1..scale.periods().div_ceil(PERIODS_A_NAME) {
        let tick = scale.starting_tick(part.saturating_mul(PERIODS_A_NAME));
        let x = scale.at(tick.saturating_sub(1));
        write!(
            text,
            "<text class=\"again\" x=\"{x}\" y=\"{y}\">{id}</text>\n"
        )?;
    }
    Ok(())
}

fn draw_lane(
    text: &mut String,
    lane: usize,
    id: Id,
    peer: &Peer,
    scale: &Scale,
) -> Result<(), AllocError> {
    let line = scale.line(lane);
    if lane % 2 == 0 {
        let y = scale.edge(lane);
        let width = scale.width();
        write!(
            text,
            r##"<rect class="band" x="0" y="{y}" width="{width}" height="{LANE}"/>"##
        )?;
    }
    let id = id.get();
    let address = peer.write();
    let address = address.as_str();
    let below = line + 17;
    write!(
        text,
        r##"<text class="id" x="{NAMES}" y="{line}" dy="4">{id}</text>"##
    )?;
    write!(
        text,
        r##"<text class="address" x="{NAMES}" y="{below}">{address}</text>"##
    )?;
    text.push_str("\n")
}

/// The line of each member, as long as it is known: whole while it is listed, broken while it is failed.
pub(crate) fn draw_lines(
    alloc: Global,
    text: &mut String,
    rows: &[Row],
    marks: &[PictureMark],
    members: &[Id],
    scale: &Scale,
) -> Result<(), AllocError> {
    let mut standings = standings_at_start(alloc, rows, members)?;
    draw_ended(text, &mut standings, marks, members, scale)?;
    draw_lasting(text, standings.as_slice(), scale)
}

fn standings_at_start(
    alloc: Global,
    rows: &[Row],
    members: &[Id],
) -> Result<Vec<LineStanding>, AllocError> {
    let mut standings = Vec::new(alloc);
    for member in members {
        standings.push(standing_at_start(rows, *member))?;
    }
    Ok(standings)
}

fn standing_at_start(rows: &[Row], member: Id) -> LineStanding {
    match rows.iter().find(|row| row.id == member) {
        None => LineStanding::Unknown,
        Some(row) => match row.state {
            RowState::Up => LineStanding::Listed(LEFT),
            RowState::Failed(_) => LineStanding::Failed(LEFT),
        },
    }
}

/// The lines that a mark ends.
fn draw_ended(
    text: &mut String,
    standings: &mut Vec<LineStanding>,
    marks: &[PictureMark],
    members: &[Id],
    scale: &Scale,
) -> Result<(), AllocError> {
    for mark in marks {
        if let Some((end, next)) = change_by(mark, scale)
            && let Some(lane) = place_of(members, mark.member)
            && let Some(standing) = standings.get_mut(lane)
        {
            let before = mem::replace(standing, next);
            draw_line(text, before, end, scale.line(lane))?;
        }
    }
    Ok(())
}

/// Where a mark changes how its member stands, and how it stands from then on.
fn change_by(mark: &PictureMark, scale: &Scale) -> Option<(u64, LineStanding)> {
    match mark.kind {
        MarkKind::Judged(_) => {
            let x = scale.at(mark.tick);
            Some((x, LineStanding::Failed(x)))
        }
        MarkKind::Joined => {
            let x = scale.joined_at(mark.tick);
            Some((x, LineStanding::Listed(x)))
        }
        MarkKind::Removed => Some((scale.removed_at(mark.tick), LineStanding::Unknown)),
        _ => None,
    }
}

/// The lines that last to the end.
fn draw_lasting(
    text: &mut String,
    standings: &[LineStanding],
    scale: &Scale,
) -> Result<(), AllocError> {
    for (lane, standing) in standings.iter().enumerate() {
        draw_line(text, *standing, scale.right(), scale.line(lane))?;
    }
    Ok(())
}

fn draw_line(
    text: &mut String,
    standing: LineStanding,
    end: u64,
    y: u64,
) -> Result<(), AllocError> {
    match standing {
        LineStanding::Unknown => Ok(()),
        LineStanding::Listed(x) => {
            write!(text, "<path class=\"listed\" d=\"M{x} {y}H{end}\"/>\n")
        }
        LineStanding::Failed(x) => {
            write!(text, "<path class=\"failed\" d=\"M{x} {y}H{end}\"/>\n")
        }
    }
}
