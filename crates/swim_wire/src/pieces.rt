//! Texts that are written to a sink piece by piece.

ghost use Rattle.std.specs.Prelude.{◌≡◌};
ghost use Rattle.swim_text.specs.Streams.{Puts, failures_if};
ghost use Rattle.swim_wire.specs.Pieces.{piece_text, pieces_text};

use crate::peers::Peer;
use crate::texts::put_address;
use swim_text::{Sink, put_number};

/// A piece of a text.
#[derive(Clone, Copy, Debug)]
pub enum Piece<'a> {
    /// These bytes.
    Text(&'a [u8]),
    /// A number, in decimal.
    Number(u64),
    /// An address.
    Address(Peer),
}

/// Writes the pieces one after another, and answers whether the sink took all of them.
pub fn put_pieces<W: Sink>(writer: &mut W, pieces: &[Piece<'_>]) -> bool
    ensures bytes { Puts (W.written writer.old) (W.written writer.new) (pieces_text pieces.now) result }
    ensures failures { W.failures writer.new ≡ failures_if (W.failures writer.old) result }
{
    let [first, others @ ..] = pieces else {
        return writer.put(b"");
    };
    if !put_piece(writer, first) {
        return false;
    }
    put_pieces(writer, others)
}

fn put_piece<W: Sink>(writer: &mut W, piece: &Piece<'_>) -> bool
    ensures bytes { Puts (W.written writer.old) (W.written writer.new) (piece_text piece.now) result }
    ensures failures { W.failures writer.new ≡ failures_if (W.failures writer.old) result }
{
    match piece {
        Piece::Text(text) => writer.put(text),
        Piece::Number(number) => put_number(writer, *number),
        Piece::Address(peer) => put_address(writer, b"", peer),
    }
}
