//! The lines of calls, written to a sink. Each function answers whether the sink took its text.

ghost use Rattle.std.specs.Prelude.{◌≡◌};
ghost use Rattle.hex.specs.Hex.{IsBytes};
ghost use Rattle.swim_wire.specs.Address.{IsAddress};
ghost use Rattle.swim_text.specs.Streams.{Puts, failures_if};
ghost use Rattle.swim_history.specs.declared.calls.Call.TheVariants.{Hear, Join};
ghost use Rattle.swim_journal.specs.Lines.{call_line, IsDecoded, IsSpoken, IsReadBack};

use swim_history::Call;
use swim_script::datagram_line;
use swim_text::Sink;
use swim_wire::{Id, Message, Peer, Piece, decode, encode, put_pieces};

/// The line of a call. In a journal file it reads back as that call.
pub fn put_call<W: Sink>(writer: &mut W, call: &Call) -> bool
    ensures bytes { Puts (W.written writer.old) (W.written writer.new) (call_line call.now) result }
    ensures failures { W.failures writer.new ≡ failures_if (W.failures writer.old) result }
    ensures back { IsReadBack call.now }
{
    read_back(call);
    match call {
        Call::Tick => writer.put(b"tick\n"),
        Call::Hear(source, message) => put_heard(writer, message, source),
        Call::Join(id, peer) => put_joined(writer, *id, *peer),
        Call::Remove(id) => put_pieces(
            writer,
            &[
                Piece::Text(b"remove "),
                Piece::Number(u64::from(id.get())),
                Piece::Text(b"\n"),
            ],
        ),
    }
}

/// The line of a message that was heard.
fn put_heard<W: Sink>(writer: &mut W, message: &Message, source: &Peer) -> bool
    ensures bytes { Puts (W.written writer.old) (W.written writer.new)
        (call_line (Hear source.now message.now)) result }
    ensures failures { W.failures writer.new ≡ failures_if (W.failures writer.old) result }
{
    let datagram = datagram_line(message);
    let pieces = [
        Piece::Text(b"hear "),
        Piece::Address(*source),
        Piece::Text(datagram.as_slice()),
    ];
    put_pieces(writer, &pieces)
}

/// The line of a member that joins.
fn put_joined<W: Sink>(writer: &mut W, id: Id, peer: Peer) -> bool
    ensures bytes { Puts (W.written writer.old) (W.written writer.new) (call_line (Join id peer)) result }
    ensures failures { W.failures writer.new ≡ failures_if (W.failures writer.old) result }
{
    let pieces = [
        Piece::Text(b"join "),
        Piece::Number(u64::from(id.get())),
        Piece::Text(b" "),
        Piece::Address(peer),
        Piece::Text(b"\n"),
    ];
    put_pieces(writer, &pieces)
}

/// The line of a call reads back as the call.
fn read_back(call: &Call)
    ensures { IsReadBack call.now }
{
    check_spoken(call);
}

/// What the types of a call show: its ids, its address and its message are such.
fn check_spoken(call: &Call)
    ensures { IsSpoken call.now }
{
    match call {
        Call::Tick => {}
        Call::Hear(source, message) => {
            check_message(message);
            check_peer(source);
        }
        Call::Join(id, peer) => {
            let _number = id.get();
            check_peer(peer);
        }
        Call::Remove(id) => {
            let _number = id.get();
        }
    }
}

fn check_message(message: &Message)
    ensures { IsDecoded message.now }
{
    let text = encode(message);
    let _message = decode(text.as_slice());
    check_bytes(text.as_slice());
}

fn check_bytes(bytes: &[u8])
    ensures { IsBytes bytes.now }
{
    let _count = bytes.len();
}

pub(crate) fn check_peer(peer: &Peer)
    ensures { IsAddress peer.now }
{
    let _text = peer.write();
}
