//! The header of a journal file, written to a sink. Each function answers whether the sink took its text.

ghost use Rattle.std.specs.Prelude.{◌≡◌, ◌++◌};
ghost use Rattle.hex.specs.Hex.{encode_lower};
ghost use Rattle.swim_wire.specs.Address.{IsAddress};
ghost use Rattle.swim_text.specs.Streams.{Puts, failures_if};
ghost use Rattle.swim_history.specs.declared.rows.RowState.TheVariants.{Up, Failed};
ghost use Rattle.swim_journal.specs.Headings.{mark_line, open_line, wire_text, row_line, row_lines, seed_line};
ghost use Rattle.swim_journal.specs.Headings.{header_text};
ghost use Rattle.swim_journal.specs.Headings.{IsState, AreTellable, IsTellable};
ghost use Rattle.swim_journal.specs.Lines.{IsId};

use crate::lines::check_peer;
use swim_history::{Opening, Row, RowState};
use swim_text::Sink;
use swim_wire::{Id, Peer, Piece, Version, put_pieces};

/// The header of the journal file of a detector's life: its opening, how many entries the journal may have, and the
/// seed with the number of the life, from whose stream it draws. The row of a member that failed tells the number of
/// that period. The header tells what it was given.
pub fn put_header<W: Sink>(
    writer: &mut W,
    opening: &Opening,
    limit: u32,
    seed: &[u8; 32],
    life: u64,
) -> bool
    ensures bytes { Puts (W.written writer.old) (W.written writer.new)
        (header_text opening.now limit seed.now life) result }
    ensures failures { W.failures writer.new ≡ failures_if (W.failures writer.old) result }
    ensures tellable { IsTellable opening.now limit seed.now life }
{
    check_opening(opening, limit, seed, life);
    if !writer.put(b"journal 1\n") {
        return false;
    }
    put_opening(writer, opening, limit, seed, life)
}

/// The lines behind the first.
fn put_opening<W: Sink>(
    writer: &mut W,
    opening: &Opening,
    limit: u32,
    seed: &[u8; 32],
    life: u64,
) -> bool
    ensures bytes { Puts (W.written writer.old) (W.written writer.new)
        (open_line opening.now limit ++ (wire_text opening.now.version
        ++ (row_lines opening.now.rows ++ seed_line seed.now life))) result }
    ensures failures { W.failures writer.new ≡ failures_if (W.failures writer.old) result }
{
    if !put_open(writer, opening, limit) {
        return false;
    }
    put_behind_open(writer, opening, seed, life)
}

/// The lines behind that of the opening.
fn put_behind_open<W: Sink>(writer: &mut W, opening: &Opening, seed: &[u8; 32], life: u64) -> bool
    ensures bytes { Puts (W.written writer.old) (W.written writer.new)
        (wire_text opening.now.version ++ (row_lines opening.now.rows ++ seed_line seed.now life)) result }
    ensures failures { W.failures writer.new ≡ failures_if (W.failures writer.old) result }
{
    if !writer.put(wire_text(opening.version())) {
        return false;
    }
    put_known(writer, opening.rows(), seed, life)
}

/// The line of a version, if it isn't the first.
fn wire_text(version: Version) -> &'static [u8]
    ensures { result.now ≡ wire_text version }
{
    match version {
        Version::One => b"",
        Version::Two => b"wire 2\n",
    }
}

/// The line of an opening.
fn put_open<W: Sink>(writer: &mut W, opening: &Opening, limit: u32) -> bool
    ensures bytes { Puts (W.written writer.old) (W.written writer.new) (open_line opening.now limit) result }
    ensures failures { W.failures writer.new ≡ failures_if (W.failures writer.old) result }
{
    let pieces = [
        Piece::Text(b"open "),
        Piece::Number(u64::from(opening.me().get())),
        Piece::Text(b" "),
        Piece::Number(u64::from(opening.k())),
        Piece::Text(b" "),
        Piece::Number(u64::from(opening.rtt())),
        Piece::Text(b" "),
        Piece::Number(u64::from(opening.period())),
        Piece::Text(b" "),
        Piece::Number(opening.last()),
        Piece::Text(b" "),
        Piece::Number(u64::from(limit)),
        Piece::Text(b"\n"),
    ];
    put_pieces(writer, &pieces)
}

/// The lines of the members that are known, and of the seed.
fn put_known<W: Sink>(writer: &mut W, rows: &[Row], seed: &[u8; 32], life: u64) -> bool
    ensures bytes { Puts (W.written writer.old) (W.written writer.new)
        (row_lines rows.now ++ seed_line seed.now life) result }
    ensures failures { W.failures writer.new ≡ failures_if (W.failures writer.old) result }
{
    if !put_rows(writer, rows) {
        return false;
    }
    put_seed(writer, seed, life)
}

/// A line for each row.
fn put_rows<W: Sink>(writer: &mut W, rows: &[Row]) -> bool
    ensures bytes { Puts (W.written writer.old) (W.written writer.new) (row_lines rows.now) result }
    ensures failures { W.failures writer.new ≡ failures_if (W.failures writer.old) result }
{
    let [first, others @ ..] = rows else {
        return true;
    };
    if !put_row(writer, first) {
        return false;
    }
    put_rows(writer, others)
}

/// The line of a row.
fn put_row<W: Sink>(writer: &mut W, row: &Row) -> bool
    ensures bytes { Puts (W.written writer.old) (W.written writer.new) (row_line row.now) result }
    ensures failures { W.failures writer.new ≡ failures_if (W.failures writer.old) result }
{
    match row.state {
        RowState::Up => put_up(writer, row.id, row.peer),
        RowState::Failed(number) => put_failed(writer, row.id, row.peer, number),
    }
}

/// The line of a member that is up.
fn put_up<W: Sink>(writer: &mut W, id: Id, peer: Peer) -> bool
    ensures bytes { Puts (W.written writer.old) (W.written writer.new)
        (row_line (record { id = id; peer = peer; state = Up })) result }
    ensures failures { W.failures writer.new ≡ failures_if (W.failures writer.old) result }
{
    let pieces = [
        Piece::Text(b"row "),
        Piece::Number(u64::from(id.get())),
        Piece::Text(b" "),
        Piece::Address(peer),
        Piece::Text(b"\n"),
    ];
    put_pieces(writer, &pieces)
}

/// The line of a member that failed.
fn put_failed<W: Sink>(writer: &mut W, id: Id, peer: Peer, number: u64) -> bool
    ensures bytes { Puts (W.written writer.old) (W.written writer.new)
        (row_line (record { id = id; peer = peer; state = Failed number })) result }
    ensures failures { W.failures writer.new ≡ failures_if (W.failures writer.old) result }
{
    let pieces = [
        Piece::Text(b"row "),
        Piece::Number(u64::from(id.get())),
        Piece::Text(b" "),
        Piece::Address(peer),
        Piece::Text(b" failed "),
        Piece::Number(number),
        Piece::Text(b"\n"),
    ];
    put_pieces(writer, &pieces)
}

/// The line of a seed and a life.
fn put_seed<W: Sink>(writer: &mut W, seed: &[u8; 32], life: u64) -> bool
    ensures bytes { Puts (W.written writer.old) (W.written writer.new) (seed_line seed.now life) result }
    ensures failures { W.failures writer.new ≡ failures_if (W.failures writer.old) result }
{
    let digits = seed_digits(seed);
    let pieces = [
        Piece::Text(b"seed "),
        Piece::Text(&digits),
        Piece::Text(b" "),
        Piece::Number(life),
        Piece::Text(b"\n"),
    ];
    put_pieces(writer, &pieces)
}

/// A seed in hexadecimal digits.
fn seed_digits(seed: &[u8; 32]) -> [u8; 64]
    ensures { result ≡ encode_lower seed.now }
{
    let mut digits = [b'0'; 64];
    let _ = hex::encode_to_slice(seed.as_slice(), &mut digits);
    digits
}

/// What the types of an opening show: a header can tell it.
fn check_opening(opening: &Opening, limit: u32, seed: &[u8; 32], life: u64)
    ensures { IsTellable opening.now limit seed.now life }
{
    let _number = opening.me().get();
    check_rows(opening.rows());
}

fn check_rows(rows: &[Row])
    ensures { AreTellable rows.now }
{
    let [first, others @ ..] = rows else {
        return;
    };
    check_row(first);
    check_rows(others);
}

fn check_row(row: &Row)
    ensures id { IsId row.now.id }
    ensures peer { IsAddress row.now.peer }
    ensures state { IsState row.now.state }
{
    let _number = row.id.get();
    check_peer(&row.peer);
    check_state(row.state);
}

fn check_state(state: RowState)
    ensures { IsState state }
{
    match state {
        RowState::Up => {}
        RowState::Failed(_) => {}
    }
}
