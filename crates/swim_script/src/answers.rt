//! The texts of answers, written to a sink. Each function that writes answers whether the sink took its text.

ghost use Rattle.std.specs.Prelude.{◌≡◌, ◌++◌, codes, decimal};
ghost use Rattle.swim_wire.specs.Pieces.{piece_text};
ghost use Rattle.swim_history.specs.Sends.{sends_of};
ghost use Rattle.swim_text.specs.Streams.{Puts, failures_if};
ghost use Rattle.swim_script.specs.Texts.{placed_text, answer_text, reply_text, id_text, probe_text, relays_text};
ghost use Rattle.swim_script.specs.Texts.{datagram_text, more_relays_text, send_text, sends_text, wire_text};
ghost use Rattle.swim_wire.specs.Address.{address_text};

use crate::datagrams::datagram_line;
use swim_history::{Opening, Probe, Relay, Reply, sends};
use swim_text::{Sink, put_number, put_numbered};
use swim_wire::{Id, Message, Peer, Piece, WireFault, put_address, put_pieces};

/// The lines of a reply: its text, and a line for each message that it sends.
pub fn put_answer<W: Sink>(writer: &mut W, reply: &Reply, opening: &Opening) -> bool
    ensures bytes { Puts (W.written writer.old) (W.written writer.new) (answer_text opening.now reply.now) result }
    ensures failures { W.failures writer.new ≡ failures_if (W.failures writer.old) result }
{
    if !put_reply(writer, reply) {
        return false;
    }
    if !writer.put(b"\n") {
        return false;
    }
    put_messages(writer, reply, opening)
}

/// The lines of the messages that a reply sends. Most replies send none, and no list is made for them.
fn put_messages<W: Sink>(writer: &mut W, reply: &Reply, opening: &Opening) -> bool
    ensures bytes { Puts (W.written writer.old) (W.written writer.new)
        (sends_text (sends_of reply.now opening.now)) result }
    ensures failures { W.failures writer.new ≡ failures_if (W.failures writer.old) result }
{
    match reply {
        Reply::Started { probe: Some(_), .. } | Reply::Asked { .. } | Reply::Send { .. } => {
            put_sends(writer, sends(reply, opening).as_slice())
        }
        _ => true,
    }
}

/// What is told of an entry: its place, and the text of what was answered, without a line feed.
pub fn put_placed<W: Sink>(writer: &mut W, place: u32, reply: &Reply) -> bool
    ensures bytes { Puts (W.written writer.old) (W.written writer.new) (placed_text place reply.now) result }
    ensures failures { W.failures writer.new ≡ failures_if (W.failures writer.old) result }
{
    let pieces = [Piece::Number(u64::from(place)), Piece::Text(b" ")];
    if !put_pieces(writer, &pieces) {
        return false;
    }
    put_reply(writer, reply)
}

/// The line of a datagram that is none.
pub fn put_wire_fault<W: Sink>(writer: &mut W, fault: WireFault) -> bool
    ensures bytes { Puts (W.written writer.old) (W.written writer.new) (wire_text fault) result }
    ensures failures { W.failures writer.new ≡ failures_if (W.failures writer.old) result }
{
    let pieces = [
        Piece::Text(b"wire "),
        Piece::Number(u64::from(fault.number())),
        Piece::Text(b"\n"),
    ];
    put_pieces(writer, &pieces)
}

/// The text of a reply, without a line feed.
pub fn put_reply<W: Sink>(writer: &mut W, reply: &Reply) -> bool
    ensures bytes { Puts (W.written writer.old) (W.written writer.new) (reply_text reply.now) result }
    ensures failures { W.failures writer.new ≡ failures_if (W.failures writer.old) result }
{
    match reply {
        Reply::Quiet => writer.put(b"quiet"),
        Reply::Started { judged, probe } => put_started(writer, *judged, *probe),
        Reply::Asked {
            target,
            number,
            relays,
            ..
        } => put_asked(writer, *target, *number, relays.as_slice()),
        Reply::Heard => writer.put(b"heard"),
        Reply::Send { .. } => writer.put(b"sent"),
        Reply::Dropped(why) => put_numbered(writer, b"dropped ", u64::from(why.number())),
        Reply::Joined { place } => put_numbered(writer, b"joined ", u64::from(*place)),
        Reply::Removed => writer.put(b"removed"),
        Reply::Refused(why) => put_numbered(writer, b"refused ", u64::from(why.number())),
    }
}

fn put_started<W: Sink>(writer: &mut W, judged: Option<Id>, probe: Option<Probe>) -> bool
    ensures bytes { Puts (W.written writer.old) (W.written writer.new)
        (codes "started judged " ++ (id_text judged ++ (codes " probe " ++ probe_text probe))) result }
    ensures failures { W.failures writer.new ≡ failures_if (W.failures writer.old) result }
{
    let told = Piece::Text(b"started judged ");
    let judged = id_piece(judged);
    match probe {
        None => put_pieces(writer, &[told, judged, Piece::Text(b" probe -")]),
        Some(probe) => {
            let pieces = [
                told,
                judged,
                Piece::Text(b" probe "),
                Piece::Number(u64::from(probe.target.get())),
                Piece::Text(b" "),
                Piece::Number(probe.number),
            ];
            put_pieces(writer, &pieces)
        }
    }
}

/// An id, or `-` for none.
fn id_piece(id: Option<Id>) -> Piece<'static>
    ensures { piece_text result ≡ id_text id }
{
    match id {
        None => Piece::Text(b"-"),
        Some(id) => Piece::Number(u64::from(id.get())),
    }
}

fn put_asked<W: Sink>(writer: &mut W, target: Id, number: u64, relays: &[Relay]) -> bool
    ensures bytes { Puts (W.written writer.old) (W.written writer.new)
        (codes "asked "
        ++ (decimal target ++ (codes " " ++ (decimal number ++ (codes " by " ++ relays_text relays.now))))) result }
    ensures failures { W.failures writer.new ≡ failures_if (W.failures writer.old) result }
{
    let pieces = [
        Piece::Text(b"asked "),
        Piece::Number(u64::from(target.get())),
        Piece::Text(b" "),
        Piece::Number(number),
        Piece::Text(b" by "),
    ];
    if !put_pieces(writer, &pieces) {
        return false;
    }
    put_relays(writer, relays)
}

/// The ids of relays with commas between, or `-` for none.
fn put_relays<W: Sink>(writer: &mut W, relays: &[Relay]) -> bool
    ensures bytes { Puts (W.written writer.old) (W.written writer.new) (relays_text relays.now) result }
    ensures failures { W.failures writer.new ≡ failures_if (W.failures writer.old) result }
{
    let [first, others @ ..] = relays else {
        return writer.put(b"-");
    };
    if !put_number(writer, u64::from(first.id.get())) {
        return false;
    }
    put_more_relays(writer, others)
}

/// The ids of relays, with a comma before each.
fn put_more_relays<W: Sink>(writer: &mut W, relays: &[Relay]) -> bool
    ensures bytes { Puts (W.written writer.old) (W.written writer.new)
        (more_relays_text relays.now) result }
    ensures failures { W.failures writer.new ≡ failures_if (W.failures writer.old) result }
{
    let [first, others @ ..] = relays else {
        return true;
    };
    if !put_numbered(writer, b",", u64::from(first.id.get())) {
        return false;
    }
    put_more_relays(writer, others)
}

/// A line for each message that is sent. The requests of a probe are alike but for their addresses, so the digits of
/// the first are spelled once for all.
fn put_sends<W: Sink>(writer: &mut W, sent: &[(Peer, Message)]) -> bool
    ensures bytes { Puts (W.written writer.old) (W.written writer.new) (sends_text sent.now) result }
    ensures failures { W.failures writer.new ≡ failures_if (W.failures writer.old) result }
{
    let [first, others @ ..] = sent else {
        return true;
    };
    let line = datagram_line(&first.1);
    if !put_spelled(writer, first.0, line.as_slice()) {
        return false;
    }
    put_alike(writer, others, &first.1, line.as_slice())
}

/// The same, where some are likely to be that message, which is spelled so.
fn put_alike<W: Sink>(
    writer: &mut W,
    sent: &[(Peer, Message)],
    message: &Message,
    spelled: &[u8],
) -> bool
    requires { spelled.now ≡ datagram_text message.now }
    ensures bytes { Puts (W.written writer.old) (W.written writer.new) (sends_text sent.now) result }
    ensures failures { W.failures writer.new ≡ failures_if (W.failures writer.old) result }
{
    let [first, others @ ..] = sent else {
        return true;
    };
    if !put_likely(writer, first, message, spelled) {
        return false;
    }
    put_alike(writer, others, message, spelled)
}

/// One of them.
fn put_likely<W: Sink>(
    writer: &mut W,
    sent: &(Peer, Message),
    message: &Message,
    spelled: &[u8],
) -> bool
    requires { spelled.now ≡ datagram_text message.now }
    ensures bytes { Puts (W.written writer.old) (W.written writer.new) (send_text sent.now) result }
    ensures failures { W.failures writer.new ≡ failures_if (W.failures writer.old) result }
{
    if sent.1 == *message {
        put_spelled(writer, sent.0, spelled)
    } else {
        put_send(writer, sent.0, &sent.1)
    }
}

/// The line of a message that is sent: its address and its datagram.
pub fn put_send<W: Sink>(writer: &mut W, peer: Peer, message: &Message) -> bool
    ensures bytes { Puts (W.written writer.old) (W.written writer.new) (send_text (peer, message.now)) result }
    ensures failures { W.failures writer.new ≡ failures_if (W.failures writer.old) result }
{
    put_spelled(writer, peer, datagram_line(message).as_slice())
}

/// The line of a message whose datagram is spelled so.
fn put_spelled<W: Sink>(writer: &mut W, peer: Peer, spelled: &[u8]) -> bool
    ensures bytes { Puts (W.written writer.old) (W.written writer.new)
        (codes "> " ++ (address_text peer ++ spelled.now)) result }
    ensures failures { W.failures writer.new ≡ failures_if (W.failures writer.old) result }
{
    if !put_address(writer, b"> ", &peer) {
        return false;
    }
    writer.put(spelled)
}
