//! The gaps between successive probes of a member that is listed all the time between, as they come.

ghost use Rattle.std.specs.Prelude.{◌≡◌, ◌+◌, ◌^◌, ◌<◌, ◌≤◌, ◌==◌, ℕ, length, filter, IfSome, nat_eq, Some};
ghost use Rattle.std.specs.Prelude.{if◌then◌else◌};
ghost use Rattle.std.specs.Option.{option_map};
ghost use Rattle.std.specs.HashMap.{get, spare};
ghost use Rattle.swim_history.specs.Setting.{is_state_up};
ghost use Rattle.swim_history.specs.Events.{is_joining, probe_in};
ghost use Rattle.swim_history.specs.Gap.{is_member, is_unlisting};
ghost use Rattle.swim_history.specs.LastProbe.{gap_since, wider};
ghost use Rattle.swim_history.specs.Storing.MemberGaps.{last_at, last_in, widest_in, unlisted, probed_again, gaps_then};
ghost use Rattle.swim_history.specs.Storing.MemberGaps.{IsOpenTo};

use crate::calls::Call;
use crate::replies::Reply;
use crate::rows::{Row, RowState};
use std::collections::HashMap;
use swim_wire::{Id, KNOWN_MEMBERS};

/// Two successive probes of a member that was listed all the time between: the numbers `a` and `b` of their
/// periods, and `n`, how many members were listed just after the first, and how many joined between.
#[derive(Clone, Copy, Debug, PartialEq, Eq)]
pub struct Gap {
    pub a: u64,
    pub b: u64,
    pub n: u64,
}

/// The last probe of a member that is listed since: the number of its period, and how many members were
/// listed just after it, and how many joined since.
#[derive(Clone, Copy)]
struct LastProbe {
    number: u64,
    n: u64,
}

/// A probe of a member: the number of its period, how many joins had been accepted by then, and how many
/// members were listed just after it.
#[derive(Clone, Copy)]
pub(crate) struct ProbeStart {
    number: u64,
    joins: u32,
    listed: u8,
}

/// What is kept of a member that was probed: its last probe while it is listed since, and its widest gap. In
/// the map a member costs 75 bytes, and at most twice as many where it has just grown.
#[derive(Clone, Copy)]
pub(crate) struct MemberGaps {
    last: Option<ProbeStart>,
    pub(crate) widest: Option<Gap>,
}

const _: () = prove!(size_of::<MemberGaps>() == 56);

/// What is kept of each member that was ever probed, by its id.
pub(crate) type GapsByMember = HashMap<u32, MemberGaps>;

/// Goes on by an entry; joins is how many had been accepted before it, and the rows are those after it. An
/// entry touches whom it probes and who is no longer listed after it, and nobody else.
pub(crate) fn note_gaps(
    gaps: &mut GapsByMember,
    call: &Call,
    reply: &Reply,
    joins: u32,
    rows: &[Row],
)
    requires room { 0 < spare gaps.old }
    requires rows { length rows.now ≤ KNOWN_MEMBERS }
    requires fits { IfSome (probe_in reply.now)
        (λ probe. IsOpenTo joins probe.number (get nat_eq gaps.old probe.target)) }
    ensures gaps { let up = length (filter (λ row. is_state_up row.state) rows.now) in
        (m : ℕ) → get nat_eq gaps.new m ≡ gaps_then m call.now reply.now up joins (get nat_eq gaps.old m) }
    ensures room { spare gaps.old ≤ spare gaps.new + 1 }
{
    if let Reply::Started {
        probe: Some(probe),
        ..
    } = reply
    {
        let start = ProbeStart {
            number: probe.number,
            joins,
            listed: count_up(rows),
        };
        note_probe(gaps, probe.target, start);
    }
    if let Some(member) = unlisted_member(call, reply) {
        forget_last(gaps, member);
    }
}

/// A probe of a member: it may end a gap, and another may begin with it.
fn note_probe(gaps: &mut GapsByMember, member: Id, start: ProbeStart)
    requires room { 0 < spare gaps.old }
    requires fits { IsOpenTo start.joins start.number (get nat_eq gaps.old member) }
    ensures gaps { (m : ℕ) → get nat_eq gaps.new m
        ≡ (if member == m then Some (probed_again start (get nat_eq gaps.old m)) else get nat_eq gaps.old m) }
    ensures room { spare gaps.old ≤ spare gaps.new + 1 }
{
    let kept = gaps.get(&member.get()).copied();
    let again = MemberGaps {
        last: Some(start),
        widest: wider(widest_in(kept), gap_since(kept, start)),
    };
    let _ = gaps.insert(member.get(), again);
}

/// The member is no longer listed, so that no gap begins with its last probe. Its widest gap stays.
fn forget_last(gaps: &mut GapsByMember, member: Id)
    ensures gaps { (m : ℕ) → get nat_eq gaps.new m
        ≡ (if member == m then option_map unlisted (get nat_eq gaps.old m) else get nat_eq gaps.old m) }
    ensures room { spare gaps.new ≡ spare gaps.old }
{
    if let Some(kept) = gaps.get_mut(&member.get()) {
        kept.last = None;
    }
}

/// The widest gap of a member.
fn widest_in(kept: Option<MemberGaps>) -> Option<Gap>
    ensures { result ≡ widest_in kept }
{
    kept?.widest
}

/// The gap that a probe of a member ends.
fn gap_since(kept: Option<MemberGaps>, start: ProbeStart) -> Option<Gap>
    requires { IfSome (last_in kept) (λ last. last.joins ≤ start.joins) }
    ensures { result ≡ gap_since (last_at start.joins (last_in kept)) start.number }
{
    let last = last_at(kept?.last?, start.joins);
    Some(Gap {
        a: last.number,
        b: start.number,
        n: last.n,
    })
}

/// A probe, seen after so many joins.
fn last_at(start: ProbeStart, joins: u32) -> LastProbe
    requires { start.joins ≤ joins }
    ensures { Some result ≡ last_at joins (Some start) }
{
    LastProbe {
        number: start.number,
        n: u64::from(start.listed) + u64::from(joins - start.joins),
    }
}

/// The wider of two gaps, the first where they are equally wide.
fn wider(first: Option<Gap>, second: Option<Gap>) -> Option<Gap>
    requires first { IfSome first (λ g. g.a ≤ g.b) }
    requires second { IfSome second (λ g. g.a ≤ g.b) }
    ensures { result ≡ wider first second }
{
    match (first, second) {
        (Some(old), Some(new)) if old.b - old.a < new.b - new.a => Some(new),
        (None, new) => new,
        (old, _) => old,
    }
}

/// Who is no longer listed after an entry: it is removed or judged.
fn unlisted_member(call: &Call, reply: &Reply) -> Option<Id>
    ensures { (m : ℕ) → is_member m result ≡ is_unlisting m call.now reply.now }
{
    match (call, reply) {
        (Call::Remove(id), Reply::Removed) => Some(*id),
        (_, Reply::Started { judged, .. }) => *judged,
        _ => None,
    }
}

/// Whether a member joins.
pub(crate) fn is_joining(call: &Call, reply: &Reply) -> bool
    ensures { result ≡ is_joining call.now reply.now }
{
    matches!((call, reply), (Call::Join(..), Reply::Joined { .. }))
}

/// How many rows are of members that are up.
fn count_up(rows: &[Row]) -> u8
    requires { length rows.now ≤ KNOWN_MEMBERS }
    ensures { result ≡ length (filter (λ row. is_state_up row.state) rows.now) }
{
    let mut up = 0;
    for row in rows {
        if row.state == RowState::Up {
            up += 1;
        }
    }
    up
}
