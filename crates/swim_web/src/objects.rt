//! A member table as JSON.

ghost use Rattle.std.specs.Prelude.{◌++◌};
ghost use Rattle.swim_text.specs.Streams.{Puts};
ghost use Rattle.swim_web.specs.Objects.{members_text, more_objects, row_object, rows_objects};

use swim_history::{Row, RowState};
use swim_text::Sink;
use swim_wire::{Piece, put_pieces};

/// Writes an object with the rows of a table. Returns whether the sink took all of it.
#[tactic(auto, using(swim_text::specs::Streams::puts_then, swim_text::specs::Streams::puts_less))]
pub fn put_members<W: Sink>(writer: &mut W, rows: &[Row]) -> bool
    ensures { Puts (W.written writer.old) (W.written writer.new) (members_text rows.now) result }
{
    if !writer.put(b"{\"members\":[") {
        return false;
    }
    if !put_rows(writer, rows) {
        return false;
    }
    writer.put(b"]}\n")
}

/// Writes the objects of rows, with commas between them.
#[tactic(auto, using(swim_text::specs::Streams::puts_then, swim_text::specs::Streams::puts_less))]
fn put_rows<W: Sink>(writer: &mut W, rows: &[Row]) -> bool
    ensures { Puts (W.written writer.old) (W.written writer.new) (rows_objects rows.now) result }
{
    let [first, others @ ..] = rows else {
        return writer.put(b"");
    };
    if !put_row(writer, b"", first) {
        return false;
    }
    put_more(writer, others)
}

/// Writes the objects of rows, with a comma before each.
#[tactic(auto, using(swim_text::specs::Streams::puts_then, swim_text::specs::Streams::puts_less))]
fn put_more<W: Sink>(writer: &mut W, rows: &[Row]) -> bool
    ensures { Puts (W.written writer.old) (W.written writer.new) (more_objects rows.now) result }
{
    let [first, others @ ..] = rows else {
        return writer.put(b"");
    };
    if !put_row(writer, b",", first) {
        return false;
    }
    put_more(writer, others)
}

/// Writes the object of a row, after some text.
fn put_row<W: Sink>(writer: &mut W, lead: &[u8], row: &Row) -> bool
    ensures { Puts (W.written writer.old) (W.written writer.new) (lead.now ++ row_object row.now) result }
{
    let id = Piece::Number(u64::from(row.id.get()));
    let peer = Piece::Address(row.peer);
    match row.state {
        RowState::Up => {
            let pieces = [
                Piece::Text(lead),
                Piece::Text(b"{\"id\":"),
                id,
                Piece::Text(b",\"peer\":\""),
                peer,
                Piece::Text(b"\",\"state\":\"up\"}"),
            ];
            put_pieces(writer, &pieces)
        }
        RowState::Failed(number) => {
            let pieces = [
                Piece::Text(lead),
                Piece::Text(b"{\"id\":"),
                id,
                Piece::Text(b",\"peer\":\""),
                peer,
                Piece::Text(b"\",\"state\":\"failed\",\"period\":"),
                Piece::Number(number),
                Piece::Text(b"}"),
            ];
            put_pieces(writer, &pieces)
        }
    }
}
