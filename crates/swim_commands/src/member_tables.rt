//! The member table of a daemon as tables of a configuration.

ghost use Rattle.std.specs.Prelude.{◌≡◌};
ghost use Rattle.swim_text.specs.Streams.{Puts};
ghost use Rattle.swim_commands.specs.Forms.{is_table, member_of, table_line, table_text, tables_text};

use crate::answers::is_over;
use swim_text::{Sink, Words};
use swim_wire::{Id, Peer, Piece, put_pieces};

/// Whether an answer is a member table: rows, and then a line with a dot.
pub fn is_table(answer: &[u8]) -> bool
    ensures { result ≡ is_table answer.now }
{
    let mut lines = Words::split(answer, b'\n');
    while let Some(line) = lines.next() {
        if member_of(line).is_none() {
            return line == b".".as_slice() && is_over(&mut lines);
        }
    }
    false
}

/// Writes a table for each row of an answer. Whether the sink took all of them.
#[tactic(auto, using(crate::proofs::LineTexts::none_written, crate::proofs::LineTexts::all_written, crate::proofs::LineTexts::write_failed))]
pub fn put_tables<W: Sink>(answer: &[u8], writer: &mut W) -> bool
    ensures { Puts (W.written writer.old) (W.written writer.new) (tables_text answer.now) result }
{
    let mut lines = Words::split(answer, b'\n');
    while let Some(line) = lines.next() {
        if !put_row(line, writer) {
            return false;
        }
    }
    true
}

/// Writes the table of a row, and nothing of any other line.
fn put_row<W: Sink>(line: &[u8], writer: &mut W) -> bool
    ensures { Puts (W.written writer.old) (W.written writer.new) (table_line line.now) result }
{
    match member_of(line) {
        Some((id, peer)) => put_member(id, peer, writer),
        None => writer.put(b""),
    }
}

/// Writes the table of a member.
fn put_member<W: Sink>(id: Id, peer: Peer, writer: &mut W) -> bool
    ensures { Puts (W.written writer.old) (W.written writer.new) (table_text (id, peer)) result }
{
    let pieces = [
        Piece::Text(b"[[member]]\nid = "),
        Piece::Number(u64::from(id.get())),
        Piece::Text(b"\nat = \""),
        Piece::Address(peer),
        Piece::Text(b"\"\n"),
    ];
    put_pieces(writer, &pieces)
}

/// The member of a row; `None` of any other line.
fn member_of(line: &[u8]) -> Option<(Id, Peer)>
    ensures { result ≡ member_of line.now }
{
    let mut words = Words::new(line);
    let id = words.next()?;
    let peer = words.next()?;
    let _state = words.next()?;
    Some((Id::read(id)?, Peer::read(peer)?))
}
