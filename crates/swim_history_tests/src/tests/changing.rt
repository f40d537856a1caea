ghost use Rattle.std.specs.Prelude.{◌<◌, ◌≤◌, length};

use super::{address, assert_same, id};
use std::process::Abort;
use swim_history::*;

fn row(member: u32, last: u8, state: RowState) -> Row
    requires { 0 < member }
{
    Row {
        id: id(member),
        peer: address(last),
        state,
    }
}

fn assert_last<R: Abort>(rt: &R, table: &Table, expected: Row) {
    assert_same(rt, &table.last(), &Some(&expected));
}

// 128 members, 1 to 128, are known: no other one becomes so until one of them goes.
#[test]
fn a_full_table_stays(rt: HostRuntime) {
    let mut table = Table::new();
    for number in 1..=128 {
        change_table(&mut table, &Change::Up(id(number), address(1)));
    }
    change_table(&mut table, &Change::Up(id(129), address(1)));
    assert_last(&rt, &table, row(128, 1, RowState::Up));
    change_table(&mut table, &Change::Failed(id(128), 7));
    assert_last(&rt, &table, row(128, 1, RowState::Failed(7)));
    change_table(&mut table, &Change::Up(id(128), address(2)));
    assert_last(&rt, &table, row(128, 2, RowState::Up));
    change_table(&mut table, &Change::Gone(id(1)));
    change_table(&mut table, &Change::Up(id(129), address(1)));
    assert_last(&rt, &table, row(129, 1, RowState::Up));
    assert_same(&rt, &table.len(), &128);
    assert_same(
        &rt,
        &copy_table(table.as_slice()).as_slice(),
        &table.as_slice(),
    );
}

// Fewer rows, as many, and more take the place of those that stood there.
#[test]
fn rows_are_replaced(rt: HostRuntime) {
    let rows = [
        row(1, 1, RowState::Up),
        row(2, 2, RowState::Failed(7)),
        row(5, 5, RowState::Up),
    ];
    let rows = rows.as_slice();
    let mut table = Table::new();
    assert_replaced(&rt, &mut table, &rows[..2]);
    assert_replaced(&rt, &mut table, &rows[2..]);
    assert_replaced(&rt, &mut table, &rows[1..2]);
    assert_replaced(&rt, &mut table, rows);
    assert_replaced(&rt, &mut table, &[]);
}

fn assert_replaced<R: Abort>(rt: &R, table: &mut Table, rows: &[Row])
    requires { length rows.now ≤ 128 }
{
    replace_rows(table, rows);
    assert_same(rt, &table.as_slice(), &rows);
}
