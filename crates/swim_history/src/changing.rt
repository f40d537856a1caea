//! Changes of a member table, whoever makes them.

ghost use Rattle.std.specs.Prelude.{◌≡◌, ◌≤◌, length, nat_le};
ghost use Rattle.swim_history.specs.Changes.{after_change, IsAscending};
ghost use Rattle.swim_history.specs.Changing.{changed_within};

use crate::copies::copied;
use crate::rows::{Change, Row, Table};
use crate::tables::{apply_change, find_row};
use swim_wire::KNOWN_MEMBERS;

/// The table with these rows. It takes no memory.
pub fn copy_table(rows: &[Row]) -> Table
    requires { length rows.now ≤ KNOWN_MEMBERS }
    ensures { result.items ≡ rows.now }
{
    copied(rows)
}

/// Has these rows take the place of those in a table. It takes no memory, and writes no more than there are rows.
pub fn replace_rows(table: &mut Table, rows: &[Row])
    requires { length rows.now ≤ KNOWN_MEMBERS }
    ensures { table.new.items ≡ rows.now }
{
    table.truncate(rows.len());
    let (front, others) = rows.split_at(table.len());
    table.as_mut_slice().copy_from_slice(front);
    let _all_fit = table.try_extend_from_slice(others);
}

/// Makes a change, unless more members would be known after it than may be: then the table stays as it was.
pub fn change_table(table: &mut Table, change: &Change)
    requires { IsAscending table.old.items }
    ensures rows { table.new.items ≡ changed_within change.now table.old.items }
    ensures ascends { IsAscending table.new.items }
{
    if has_room(table.as_slice(), change) {
        apply_change(table, change);
    }
}

/// Whether no more members are known after a change than may be.
fn has_room(rows: &[Row], change: &Change) -> bool
    requires ascends { IsAscending rows.now }
    requires bound { length rows.now ≤ KNOWN_MEMBERS }
    ensures { result ≡ nat_le (length (after_change change.now rows.now)) KNOWN_MEMBERS }
{
    match change {
        Change::Up(id, _) => rows.len() < KNOWN_MEMBERS || find_row(rows, *id).is_some(),
        Change::Failed(..) | Change::Gone(_) => true,
    }
}
