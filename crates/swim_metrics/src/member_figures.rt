//! What is told of each member of the table.

ghost use Rattle.std.specs.Prelude.{◌≡◌, ◌≤◌, ◌+◌, ◌++◌, map, length};
ghost use Rattle.swim_history.specs.Setting.{is_state_up};
ghost use Rattle.swim_metrics.specs.Members.{carried, carried_row, changed_then, counted_then, figures_then, tally_in};

use crate::member_tallies::MemberTally;
use crate::tests_of_entries::is_of_members;
use arrayvec::ArrayVec;
use swim_history::{Call, Change, KNOWN_MEMBERS, Reply, Row, RowState};
use swim_wire::Id;

/// What is told of a member.
#[derive(Clone, Copy, Debug, Default, PartialEq, Eq)]
pub struct MemberFigures {
    pub id: Id,
    /// Whether the member is up; else it is failed.
    pub is_up: bool,
    pub tally: MemberTally,
}

/// What is told of each member of the table, ascending by id.
pub type MemberRows = ArrayVec<MemberFigures, KNOWN_MEMBERS>;

impl MemberFigures {
    /// After an entry.
    fn after(self, call: &Call, reply: &Reply) -> MemberFigures
        ensures { result ≡ figures_then call.now reply.now self }
    {
        MemberFigures {
            id: self.id,
            is_up: self.is_up,
            tally: self.tally.after(self.id, call, reply),
        }
    }
}

/// Counts an entry for each member.
pub(crate) fn count_for_members(members: &mut MemberRows, call: &Call, reply: &Reply)
    ensures { members.new.items ≡ counted_then call.now reply.now members.old.items }
{
    if is_of_members(reply) {
        count_for_each(members.as_mut_slice(), call, reply);
    }
}

/// Counts an entry that is of members.
fn count_for_each(rows: &mut [MemberFigures], call: &Call, reply: &Reply)
    ensures { rows.new ≡ map (figures_then call.now reply.now) rows.old }
{
    for row in rows.iter_mut() {
        *row = row.after(call, reply);
    }
}

/// The members of a table, if it changed, each with what was counted of it until now.
pub(crate) fn carry_over(members: &mut MemberRows, change: &Option<Change>, table: &[Row])
    requires { length table.now ≤ KNOWN_MEMBERS }
    ensures { members.new.items ≡ changed_then change.now table.now members.old.items }
{
    if change.is_some() {
        replace(members, table);
    }
}

/// Puts the members of a table, each with what was counted of it until now, in the place of those that were known.
// Kept out of line: a table is large, and most entries change none.
#[inline(never)]
fn replace(members: &mut MemberRows, table: &[Row])
    requires { length table.now ≤ KNOWN_MEMBERS }
    ensures { members.new.items ≡ carried members.old.items table.now }
{
    *members = carried(members.as_slice(), table);
}

/// The members of a table, each with what was counted of it until now.
pub(crate) fn carried(old: &[MemberFigures], table: &[Row]) -> MemberRows
    requires { length table.now ≤ KNOWN_MEMBERS }
    ensures { result.items ≡ carried old.now table.now }
{
    let mut rows = MemberRows::new();
    carry(&mut rows, old, table);
    rows
}

/// Adds them to others.
fn carry(rows: &mut MemberRows, old: &[MemberFigures], table: &[Row])
    requires { length rows.old.items + length table.now ≤ KNOWN_MEMBERS }
    ensures { rows.new.items ≡ rows.old.items ++ map (carried_row old.now) table.now }
{
    let [first, others @ ..] = table else {
        return;
    };
    rows.push(carried_row(old, first));
    carry(rows, old, others);
}

/// A member, with what was counted of it until now.
fn carried_row(old: &[MemberFigures], row: &Row) -> MemberFigures
    ensures { result ≡ carried_row old.now row.now }
{
    MemberFigures {
        id: row.id,
        is_up: is_up(row.state),
        tally: tally_in(row.id, old),
    }
}

fn is_up(state: RowState) -> bool
    ensures { result ≡ is_state_up state }
{
    match state {
        RowState::Up => true,
        RowState::Failed(_) => false,
    }
}

/// What was counted of a member, if it is among these.
pub(crate) fn tally_in(member: Id, rows: &[MemberFigures]) -> MemberTally
    ensures { result ≡ tally_in member rows.now }
{
    rows.iter()
        .find(|row| row.id == member)
        .map(|row| row.tally)
        .unwrap_or(MemberTally::new())
}

/// The same members.
pub(crate) fn copied_members(members: &[MemberFigures]) -> MemberRows
    requires { length members.now ≤ KNOWN_MEMBERS }
    ensures { result.items ≡ members.now }
{
    let mut copy = MemberRows::new();
    let _all_fit = copy.try_extend_from_slice(members);
    copy
}
