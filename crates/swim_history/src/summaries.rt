//! What is kept of a history, so that nobody has to walk through it.

ghost use Rattle.std.specs.Prelude.{◌≡◌, ◌+◌, ◌^◌, ◌<◌, ◌≤◌, ℕ, [], length, nat_eq, true, OnOk, IsOk, if◌then◌else◌};
ghost use Rattle.std.specs.Option.{option_to_list};
ghost use Rattle.std.specs.HashMap.{get, spare};
ghost use Rattle.swim_history.specs.Events.{is_starting, is_joining, judged_in};
ghost use Rattle.swim_history.specs.Changes.{change_by, rows_after, IsAscending};
ghost use Rattle.swim_history.specs.Storing.MemberGaps.{widest_in};
ghost use Rattle.swim_history.specs.Storing.Written.{IsSummary, HasRoomFor, IsNext, IsSame};

use crate::calls::Call;
use crate::gaps::{Gap, GapsByMember, is_joining, note_gaps};
use crate::openings::Opening;
use crate::replies::Reply;
use crate::rows::Table;
use crate::tables::{apply_change, change_by, table_of};
use std::alloc::{AllocError, Global};
use swim_wire::{Id, KNOWN_MEMBERS};

/// The member table, the last period number used, how many members were judged failed, how many joined, and
/// what is kept of the gaps of each member that was ever probed.
#[derive(Drop)]
pub(crate) struct Summary {
    pub(crate) rows: Table,
    pub(crate) number: u64,
    pub(crate) judged: u32,
    joins: u32,
    gaps: GapsByMember,
}

impl Summary {
    /// What is kept of a detector that wasn't called yet. It takes no memory.
    pub(crate) fn new(alloc: Global, opening: &Opening) -> Summary
        ensures { IsSummary opening.now [] result }
    {
        Summary {
            rows: table_of(opening.rows()),
            number: opening.last(),
            judged: 0,
            joins: 0,
            gaps: GapsByMember::new(alloc),
        }
    }

    /// Makes room for one more entry: it may be the first that probes its member. `Err` only where the
    /// memory for it was refused.
    pub(crate) fn room(&mut self) -> Result<(), AllocError>
        ensures same { IsSame self.old self.new }
        ensures room { OnOk result (0 < spare self.new.gaps) }
        ensures kept { spare self.old.gaps ≤ spare self.new.gaps }
        ensures succeeds { 0 < spare self.old.gaps → IsOk result }
    {
        self.gaps.reserve(1)
    }

    /// Goes on by an entry. It can't be refused, since room for it was made.
    pub(crate) fn note(&mut self, call: &Call, reply: &Reply)
        requires { HasRoomFor call.now reply.now self.old }
        ensures { IsNext call.now reply.now self.old self.new }
    {
        note_change(&mut self.rows, call, reply, self.number);
        note_gaps(
            &mut self.gaps,
            call,
            reply,
            self.joins,
            self.rows.as_slice(),
        );
        self.joins = joins_after(self.joins, call, reply);
        self.judged = count_after(self.judged, reply);
        self.number = number_after(self.number, reply);
    }

    /// The widest gap of a member.
    pub(crate) fn widest_gap(&self, member: Id) -> Option<Gap>
        ensures { result ≡ widest_in (get nat_eq self.now.gaps member) }
    {
        self.gaps.get(&member.get())?.widest
    }
}

/// Whom a start judged.
fn judged_member(reply: &Reply) -> Option<Id>
    ensures { result ≡ judged_in reply.now }
{
    match reply {
        Reply::Started { judged, .. } => *judged,
        _ => None,
    }
}

/// Whether a period begins.
fn is_start(reply: &Reply) -> bool
    ensures { result ≡ is_starting reply.now }
{
    matches!(reply, Reply::Started { .. })
}

/// Makes the change of an entry, if it makes one; number is that of the period which it ends, if it
/// ends one.
fn note_change(rows: &mut Table, call: &Call, reply: &Reply, number: u64)
    requires ascends { IsAscending rows.old.items }
    requires fits { let change = change_by call.now reply.now number in
        length (rows_after rows.old.items (option_to_list change)) ≤ KNOWN_MEMBERS }
    ensures { let change = change_by call.now reply.now number in
        rows.new.items ≡ rows_after rows.old.items (option_to_list change) }
{
    if let Some(change) = change_by(call, reply, number) {
        apply_change(rows, &change);
    }
}

/// How many members were judged after a reply.
fn count_after(judged: u32, reply: &Reply) -> u32
    requires { judged + 1 < 2 ^ 32 }
    ensures { result ≡ judged + length (option_to_list (judged_in reply.now)) }
{
    if judged_member(reply).is_some() {
        judged + 1
    } else {
        judged
    }
}

/// How many members joined after an entry.
fn joins_after(joins: u32, call: &Call, reply: &Reply) -> u32
    requires { joins + 1 < 2 ^ 32 }
    ensures { result ≡ (if is_joining call.now reply.now then joins + 1 else joins) }
{
    if is_joining(call, reply) {
        joins + 1
    } else {
        joins
    }
}

/// The last period number used after an entry.
fn number_after(number: u64, reply: &Reply) -> u64
    requires { is_starting reply.now ≡ true → number + 1 < 2 ^ 64 }
    ensures { result ≡ (if is_starting reply.now then number + 1 else number) }
{
    if is_start(reply) { number + 1 } else { number }
}
