//! Addresses as text: written to a sink, or into bytes of the caller's.

ghost use Rattle.std.specs.Prelude.{◌≡◌, ◌+◌, ◌<◌, ◌≤◌, ◌∷◌, ◌++◌, length, drop, decimal};
ghost use Rattle.swim_text.specs.Streams.{Puts, failures_if};
ghost use Rattle.swim_wire.specs.Address.{address_text};

use crate::peers::Peer;
use itoa::write_digits;
use swim_text::Sink;

/// How many bytes the text of an address has at most.
pub const ADDRESS_BYTES: usize = 21;

/// A word and an address. Answers whether the sink took both.
pub fn put_address<W: Sink>(writer: &mut W, word: &[u8], peer: &Peer) -> bool
    ensures bytes { Puts (W.written writer.old) (W.written writer.new) (word.now ++ address_text peer.now) result }
    ensures failures { W.failures writer.new ≡ failures_if (W.failures writer.old) result }
{
    if !writer.put(word) {
        return false;
    }
    let mut text = [0; ADDRESS_BYTES];
    let start = write_address(peer, &mut text, ADDRESS_BYTES);
    writer.put(&text[start..])
}

/// Writes an address into the bytes so that its text ends before `end`, and returns where it starts. Behind it they stay
/// as they were. So several texts are written into one array, the last one first, and put at once.
pub fn write_address(peer: &Peer, bytes: &mut [u8], end: usize) -> usize
    requires room { ADDRESS_BYTES ≤ end }
    requires within { end ≤ length bytes.old }
    ensures start { end ≤ result + ADDRESS_BYTES }
    ensures within { result < end }
    ensures written { drop result bytes.new ≡ address_text peer.now ++ drop end bytes.old }
{
    let start = write_marked(b':', u64::from(peer.port), bytes, end);
    let start = write_marked(b'.', u64::from(peer.ip[3]), bytes, start);
    let start = write_marked(b'.', u64::from(peer.ip[2]), bytes, start);
    let start = write_marked(b'.', u64::from(peer.ip[1]), bytes, start);
    write_digits(u64::from(peer.ip[0]), bytes, start)
}

/// Writes a mark and a number into the bytes so that they end before `end`, and returns where the mark stands.
fn write_marked(mark: u8, number: u64, bytes: &mut [u8], end: usize) -> usize
    requires room { length (decimal number) < end }
    requires within { end ≤ length bytes.old }
    ensures start { result + 1 + length (decimal number) ≡ end }
    ensures written { drop result bytes.new ≡ mark ∷ decimal number ++ drop end bytes.old }
{
    let start = write_digits(number, bytes, end) - 1;
    bytes[start] = mark;
    start
}
