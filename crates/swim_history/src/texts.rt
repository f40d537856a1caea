//! The texts of a member table and of a gap, written to a sink. Each function answers whether the sink took its text.
//! A row's line is written into an array first, and put at once.

ghost use Rattle.std.specs.Prelude.{◌≡◌, ◌≤◌, ◌++◌, Some, codes, decimal, drop};
ghost use Rattle.swim_text.specs.Streams.{Puts, failures_if};
ghost use Rattle.swim_history.specs.Texts.{row_text, rows_text, table_text, gap_text, state_text, feed};

use crate::gaps::Gap;
use crate::rows::{Row, RowState};
use itoa::write_digits;
use swim_text::{Sink, put_numbered};
use swim_wire::{ADDRESS_BYTES, write_address};

/// How many bytes stand before a member's state in the line of its row at most: an id of ten digits, a space and an
/// address.
const BEFORE_STATE: usize = 11 + ADDRESS_BYTES;

/// How many bytes the line of a row has at most: behind those ` failed `, a number of 20 digits and a line feed.
const ROW_BYTES: usize = BEFORE_STATE + 29;

/// A line for each row, and a dot.
pub fn put_table<W: Sink>(writer: &mut W, rows: &[Row]) -> bool
    ensures bytes { Puts (W.written writer.old) (W.written writer.new) (table_text rows.now) result }
    ensures failures { W.failures writer.new ≡ failures_if (W.failures writer.old) result }
{
    if !put_rows(writer, rows) {
        return false;
    }
    writer.put(b".\n")
}

/// A line for each row.
fn put_rows<W: Sink>(writer: &mut W, rows: &[Row]) -> bool
    ensures bytes { Puts (W.written writer.old) (W.written writer.new) (rows_text rows.now) result }
    ensures failures { W.failures writer.new ≡ failures_if (W.failures writer.old) result }
{
    let [first, others @ ..] = rows else {
        return true;
    };
    if !put_row(writer, first) {
        return false;
    }
    put_rows(writer, others)
}

/// The line of a row.
fn put_row<W: Sink>(writer: &mut W, row: &Row) -> bool
    ensures bytes { Puts (W.written writer.old) (W.written writer.new) (row_text row.now) result }
    ensures failures { W.failures writer.new ≡ failures_if (W.failures writer.old) result }
{
    let mut line = [0; ROW_BYTES];
    let start = write_row(row, &mut line);
    writer.put(&line[start..])
}

/// Writes the line of a row at the end of the bytes, its last part first, and returns where it starts.
fn write_row(row: &Row, line: &mut [u8; ROW_BYTES]) -> usize
    ensures within { result ≤ ROW_BYTES }
    ensures written { drop result line.new ≡ row_text row.now }
{
    let start = write_state(row.state, line);
    let start = write_address(&row.peer, line, start) - 1;
    line[start] = b' ';
    write_digits(u64::from(row.id.get()), line, start)
}

/// Writes the state of a row's member and the end of its line at the end of the bytes, and returns where they start.
fn write_state(state: RowState, line: &mut [u8; ROW_BYTES]) -> usize
    ensures room { BEFORE_STATE ≤ result }
    ensures within { result ≤ ROW_BYTES }
    ensures written { drop result line.new ≡ state_text state ++ feed }
{
    match state {
        RowState::Up => {
            let start = ROW_BYTES - 4;
            line[start..].copy_from_slice(b" up\n");
            start
        }
        RowState::Failed(number) => write_failed(number, line),
    }
}

/// Writes when a row's member failed and the end of its line at the end of the bytes, and returns where they start.
fn write_failed(number: u64, line: &mut [u8; ROW_BYTES]) -> usize
    ensures room { BEFORE_STATE ≤ result }
    ensures within { result ≤ ROW_BYTES }
    ensures written { drop result line.new ≡ (codes " failed " ++ decimal number) ++ feed }
{
    let end = ROW_BYTES - 1;
    line[end] = b'\n';
    let digits = write_digits(number, line, end);
    let start = digits - 8;
    line[start..digits].copy_from_slice(b" failed ");
    start
}

/// The line of a gap, or that there is none.
pub fn put_gap<W: Sink>(writer: &mut W, gap: Option<Gap>) -> bool
    ensures bytes { Puts (W.written writer.old) (W.written writer.new) (gap_text gap) result }
    ensures failures { W.failures writer.new ≡ failures_if (W.failures writer.old) result }
{
    match gap {
        None => writer.put(b"gap none\n"),
        Some(gap) => put_found_gap(writer, gap),
    }
}

/// Writes the line of a gap.
fn put_found_gap<W: Sink>(writer: &mut W, gap: Gap) -> bool
    ensures bytes { Puts (W.written writer.old) (W.written writer.new) (gap_text (Some gap)) result }
    ensures failures { W.failures writer.new ≡ failures_if (W.failures writer.old) result }
{
    if !put_numbered(writer, b"gap ", gap.a) {
        return false;
    }
    if !put_numbered(writer, b" ", gap.b) {
        return false;
    }
    if !put_numbered(writer, b" ", gap.n) {
        return false;
    }
    writer.put(b"\n")
}
