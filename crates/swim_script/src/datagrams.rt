//! Datagrams in hexadecimal digits.

ghost use Rattle.std.specs.Prelude.{◌≡◌, ◌↔◌, ◌*◌, ◌%◌, ◌<◌, IsTrue, length};
ghost use Rattle.std.specs.List.{AllPass};
ghost use Rattle.hex.specs.Hex.{is_hex_digit};
ghost use Rattle.swim_script.specs.Arguments.{datagram_of};
ghost use Rattle.swim_script.specs.Texts.{datagram_text};

use arrayvec::ArrayVec;
use swim_wire::{LONGEST_DATAGRAM_BYTES, Message, WireFault, decode, encode};

/// The length of the longest line of a datagram, in bytes: a space, its digits and a line feed.
pub const LONGEST_DATAGRAM_LINE: usize = 2 * LONGEST_DATAGRAM_BYTES + 2;

/// A space, the datagram of a message in hexadecimal digits, and the end of the line.
pub fn datagram_line(message: &Message) -> ArrayVec<u8, LONGEST_DATAGRAM_LINE>
    ensures { result.items ≡ datagram_text message.now }
{
    let bytes = encode(message);
    let end = 2 * bytes.len() + 1;
    let mut text = [b'\n'; LONGEST_DATAGRAM_LINE];
    text[0] = b' ';
    let _ = hex::encode_to_slice(bytes.as_slice(), &mut text[1..end]);
    let mut line = ArrayVec::from(text);
    line.truncate(end + 1);
    line
}

/// What the digits spell, either case: a message, or the fault of bytes that are none. `None` where they are
/// no digits, or an odd number of them.
pub fn read_datagram(text: &[u8]) -> Option<Result<Message, WireFault>>
    ensures { result ≡ datagram_of text.now }
{
    if text.len() % 2 == 1 {
        return None;
    }
    if text.len() > 2 * LONGEST_DATAGRAM_BYTES {
        return of_too_many(text);
    }
    let mut bytes = [0; LONGEST_DATAGRAM_BYTES];
    decode_into(text, &mut bytes[..text.len() / 2])
}

/// What as many digits spell as have room in these bytes.
fn decode_into(text: &[u8], bytes: &mut [u8]) -> Option<Result<Message, WireFault>>
    requires { length text.now ≡ 2 * length bytes.old }
    ensures { result ≡ datagram_of text.now }
{
    match hex::decode_to_slice(text, bytes) {
        Ok(()) => Some(decode(bytes)),
        Err(_) => None,
    }
}

/// What an even number of digits spell that are more than any datagram has.
fn of_too_many(text: &[u8]) -> Option<Result<Message, WireFault>>
    requires even { length text.now % 2 ≡ 0 }
    requires many { 2 * LONGEST_DATAGRAM_BYTES < length text.now }
    ensures { result ≡ datagram_of text.now }
{
    if are_digits(text) {
        Some(Err(WireFault::Length))
    } else {
        None
    }
}

fn are_digits(text: &[u8]) -> bool
    ensures { IsTrue result ↔ AllPass is_hex_digit text.now }
{
    text.iter().all(|digit| is_digit(*digit))
}

fn is_digit(byte: u8) -> bool
    ensures { result ≡ is_hex_digit byte }
{
    byte.is_ascii_hexdigit()
}
