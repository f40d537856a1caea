//! The marks of a run: what a picture of it shows.

ghost use Rattle.std.specs.Prelude.{◌≡◌, ◌++◌, ◌≤◌, OnOk, length};
ghost use Rattle.swim_timeline.specs.Marks.{mark_at, marks_by, marks_of_judged, marks_of_probe};

use arrayvec::ArrayVec;
use std::alloc::AllocError;
use swim_history::{Call, Called, MOST_RELAYS, Probe, Relay, Reply};
use swim_wire::Id;

/// What happened to a member (sections 3.1 and 4.3 of the SWIM paper). The numbers are those of periods.
#[derive(Debug, PartialEq, Eq, Drop)]
pub enum MarkKind {
    /// It was pinged at the start of this period.
    Probed(u64),
    /// No ack of it came by the timeout of this period, and these members were asked to ping it.
    Asked(u64, ArrayVec<Relay, MOST_RELAYS>),
    /// An ack of it came for this period.
    Heard(u64),
    /// It was judged failed at the end of this period.
    Judged(u64),
    /// It was listed.
    Joined,
    /// It was forgotten.
    Removed,
}

/// A place in a picture: how many ticks there were by then, and a member.
#[derive(Debug, PartialEq, Eq, Drop)]
pub struct PictureMark {
    pub tick: u32,
    pub member: Id,
    pub kind: MarkKind,
}

/// Adds the marks of an entry: `tick` is how many ticks there were with it, and `ended` the last period number used
/// before it. `Err` only where memory was refused.
pub(crate) fn add_marks(
    marks: &mut Vec<PictureMark>,
    tick: u32,
    ended: u64,
    called: &Called,
) -> Result<(), AllocError>
    ensures { OnOk result (marks.new.items ≡ marks.old.items ++ marks_by tick ended called.now.call called.now.reply) }
{
    match &called.reply {
        Reply::Started { judged, probe } => {
            add_judgement(marks, tick, ended, *judged)?;
            add_probe(marks, tick, *probe)
        }
        Reply::Asked {
            target,
            number,
            relays,
            ..
        } => {
            let relays = copied(relays.as_slice());
            add(marks, tick, *target, MarkKind::Asked(*number, relays))
        }
        Reply::Heard => match &called.call {
            Call::Hear(_, ack) => add(marks, tick, ack.target, MarkKind::Heard(ack.number.get())),
            _ => Ok(()),
        },
        Reply::Joined { .. } => match &called.call {
            Call::Join(id, _) => add(marks, tick, *id, MarkKind::Joined),
            _ => Ok(()),
        },
        Reply::Removed => match &called.call {
            Call::Remove(id) => add(marks, tick, *id, MarkKind::Removed),
            _ => Ok(()),
        },
        _ => Ok(()),
    }
}

/// The same relays again.
fn copied(relays: &[Relay]) -> ArrayVec<Relay, MOST_RELAYS>
    requires { length relays.now ≤ MOST_RELAYS }
    ensures { result.items ≡ relays.now }
{
    let mut copy = ArrayVec::new();
    let _all_fit = copy.try_extend_from_slice(relays);
    copy
}

fn add_judgement(
    marks: &mut Vec<PictureMark>,
    tick: u32,
    ended: u64,
    judged: Option<Id>,
) -> Result<(), AllocError>
    ensures { OnOk result (marks.new.items ≡ marks.old.items ++ marks_of_judged tick ended judged) }
{
    match judged {
        Some(member) => add(marks, tick, member, MarkKind::Judged(ended)),
        None => Ok(()),
    }
}

fn add_probe(
    marks: &mut Vec<PictureMark>,
    tick: u32,
    probe: Option<Probe>,
) -> Result<(), AllocError>
    ensures { OnOk result (marks.new.items ≡ marks.old.items ++ marks_of_probe tick probe) }
{
    match probe {
        Some(probe) => add(marks, tick, probe.target, MarkKind::Probed(probe.number)),
        None => Ok(()),
    }
}

fn add(
    marks: &mut Vec<PictureMark>,
    tick: u32,
    member: Id,
    kind: MarkKind,
) -> Result<(), AllocError>
    ensures { OnOk result (marks.new.items ≡ marks.old.items ++ mark_at tick member kind) }
{
    Ok(marks.push(PictureMark { tick, member, kind })?)
}
