//! Where the steps of a probe are in its picture, in pixels.

ghost use Rattle.std.specs.Prelude.{◌≡◌, ◌<◌, ◌^◌};
ghost use Rattle.swim_chart.specs.Spots.{bottom, end_of, height, in_time, line_of, middle, period_end, right, spot};
ghost use Rattle.swim_chart.specs.Spots.{start_of, too_late, width};

use crate::charts::Arrow;
use crate::roles::Role;

/// A place in the picture.
#[derive(Clone, Copy)]
pub(crate) struct Point {
    pub x: u64,
    pub y: u64,
}

/// A straight line.
#[derive(Clone, Copy)]
pub(crate) struct Line {
    pub from: Point,
    pub to: Point,
}

/// Returns where a step is in a lane.
pub(crate) fn spot(step: u64, lane: u64) -> Point
    requires step { step < 2 ^ 40 }
    requires lane { lane < 2 ^ 40 }
    ensures { result ≡ spot step lane }
{
    Point {
        x: 120 + 40 * step,
        y: 190 + 64 * lane,
    }
}

/// Returns where a datagram is sent, with that number of relays.
pub(crate) fn start_of(relays: u32, role: Role) -> Point
    ensures { result ≡ start_of relays role }
{
    let all = u64::from(relays);
    match role {
        Role::Ping => spot(0, 0),
        Role::Ack => spot(2, 1),
        Role::Request(_) => spot(6, 0),
        Role::RelayPing(relay) => spot(8, 2 + u64::from(relay)),
        Role::RelayAck(relay) => spot(10 + u64::from(relay), 1),
        Role::Forward(relay) => spot(11 + all, 2 + u64::from(relay)),
    }
}

/// Returns where a datagram is heard.
pub(crate) fn end_of(relays: u32, arrow: &Arrow) -> Point
    ensures { result ≡ end_of relays arrow.now }
{
    if arrow.is_late {
        too_late(relays, arrow.role)
    } else {
        in_time(relays, arrow.role)
    }
}

/// Returns where a datagram is heard within the period.
fn in_time(relays: u32, role: Role) -> Point
    ensures { result ≡ in_time relays role }
{
    let all = u64::from(relays);
    match role {
        Role::Ping => spot(2, 1),
        Role::Ack => spot(4, 0),
        Role::Request(relay) => spot(8, 2 + u64::from(relay)),
        Role::RelayPing(relay) => spot(10 + u64::from(relay), 1),
        Role::RelayAck(relay) => spot(11 + all, 2 + u64::from(relay)),
        Role::Forward(relay) => spot(13 + all + u64::from(relay), 0),
    }
}

/// Returns where the initiator hears a datagram after the end of the period.
fn too_late(relays: u32, role: Role) -> Point
    ensures { result ≡ too_late relays role }
{
    let all = u64::from(relays);
    match role {
        Role::Ack => spot(16 + 2 * all, 0),
        Role::Forward(relay) => spot(17 + 2 * all + u64::from(relay), 0),
        Role::Ping | Role::Request(_) | Role::RelayPing(_) | Role::RelayAck(_) => {
            in_time(relays, role)
        }
    }
}

/// Returns the line from where a datagram is sent to where it is heard.
pub(crate) fn line_of(relays: u32, arrow: &Arrow) -> Line
    ensures { result ≡ line_of relays arrow.now }
{
    Line {
        from: start_of(relays, arrow.role),
        to: end_of(relays, arrow),
    }
}

/// Returns the middle of a line.
pub(crate) fn middle(line: Line) -> Point
    ensures { result ≡ middle line }
{
    Point {
        x: line.from.x / 2 + line.to.x / 2,
        y: line.from.y / 2 + line.to.y / 2,
    }
}

/// Returns where the period ends.
pub(crate) fn period_end(relays: u32) -> u64
    ensures { result ≡ period_end relays }
{
    spot(14 + 2 * u64::from(relays), 0).x
}

/// Returns where the lanes end.
pub(crate) fn right(relays: u32) -> u64
    ensures { result ≡ right relays }
{
    spot(18 + 3 * u64::from(relays), 0).x
}

/// Returns how far below the lanes the line of the period's end goes.
pub(crate) fn bottom(relays: u32) -> u64
    ensures { result ≡ bottom relays }
{
    spot(0, 1 + u64::from(relays)).y + 28
}

/// Returns the width of the picture.
pub(crate) fn width(relays: u32) -> u64
    ensures { result ≡ width relays }
{
    right(relays) + 24
}

/// Returns the height of the picture.
pub(crate) fn height(relays: u32) -> u64
    ensures { result ≡ height relays }
{
    bottom(relays) + 16
}
