//! The member table: its rows stand ascending by id, and a change keeps them so.

ghost use Rattle.std.specs.Prelude.{◌≡◌, ◌≤◌, ◌<◌, length, IfOk, IfErr};
ghost use Rattle.swim_history.specs.Rows.{row_at};
ghost use Rattle.swim_history.specs.Changes.{put, ascending, IsAscending, after_change, change_by};
ghost use Rattle.swim_history.specs.Places.{IsAt, IsGapFor};
ghost use Rattle.swim_history.specs.declared.rows.Change.TheVariants as change;

use crate::calls::Call;
use crate::replies::Reply;
use crate::rows::{Change, Row, RowState, Table};
use swim_wire::{Id, KNOWN_MEMBERS};

/// The table of these rows.
pub fn table_of(rows: &[Row]) -> Table
    requires { length rows.now ≤ KNOWN_MEMBERS }
    ensures { result.items ≡ ascending rows.now }
{
    let mut table = Table::new();
    for row in rows.iter().rev() {
        put(&mut table, *row);
    }
    table
}

/// The change that an entry makes, if any; number is that of the period which it ends, if it ends one.
pub fn change_by(call: &Call, reply: &Reply, number: u64) -> Option<Change>
    ensures { result ≡ change_by call.now reply.now number }
{
    match (call, reply) {
        (Call::Join(id, peer), Reply::Joined { .. }) => Some(Change::Up(*id, *peer)),
        (Call::Remove(id), Reply::Removed) => Some(Change::Gone(*id)),
        (
            Call::Tick,
            Reply::Started {
                judged: Some(judged),
                ..
            },
        ) => Some(Change::Failed(*judged, number)),
        _ => None,
    }
}

/// Makes a change.
pub(crate) fn apply_change(table: &mut Table, change: &Change)
    requires ascends { IsAscending table.old.items }
    requires fits { length (after_change change.now table.old.items) ≤ KNOWN_MEMBERS }
    ensures { table.new.items ≡ after_change change.now table.old.items }
{
    match *change {
        Change::Up(id, peer) => put(
            table,
            Row {
                id,
                peer,
                state: RowState::Up,
            },
        ),
        Change::Failed(id, number) => fail(table, id, number),
        Change::Gone(id) => forget(table, id),
    }
}

/// The row of a member in a table, which is ascending by id: of N rows it looks at some log N.
pub fn find_row(rows: &[Row], id: Id) -> Option<Row>
    requires { IsAscending rows.now }
    ensures { result ≡ row_at rows.now id }
{
    match search(rows, id) {
        Ok(place) => Some(rows[place]),
        Err(_) => None,
    }
}

/// Puts a row among the others, or in place of the one with its id.
fn put(table: &mut Table, row: Row)
    requires ascends { IsAscending table.old.items }
    requires fits { length (put row table.old.items) ≤ KNOWN_MEMBERS }
    ensures { table.new.items ≡ put row table.old.items }
{
    match search(table.as_slice(), row.id) {
        Ok(place) => table[place] = row,
        Err(place) => table.insert(place, row),
    }
}

/// Notes that a member failed in a period, if it is known.
fn fail(table: &mut Table, id: Id, number: u64)
    requires { IsAscending table.old.items }
    ensures { table.new.items ≡ after_change (change.Failed id number) table.old.items }
{
    if let Ok(place) = search(table.as_slice(), id) {
        table[place].state = RowState::Failed(number);
    }
}

/// Takes a member's row out, if it is known.
fn forget(table: &mut Table, id: Id)
    requires { IsAscending table.old.items }
    ensures { table.new.items ≡ after_change (change.Gone id) table.old.items }
{
    if let Ok(place) = search(table.as_slice(), id) {
        table.remove(place);
    }
}

/// Where a member's row stands, or where it would.
fn search(rows: &[Row], id: Id) -> Result<usize, usize>
    requires { IsAscending rows.now }
    ensures found { IfOk result (IsAt rows.now id) }
    ensures absent { IfErr result (IsGapFor rows.now id) }
{
    rows.binary_search_by_key(&id, |row| row.id)
}
