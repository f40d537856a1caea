//! A line below the line of a fault, for a person.

ghost use Rattle.std.specs.Prelude.{◌≡◌, [], take, true};
ghost use Rattle.swim_text.specs.Streams.{Puts, failures_if};
ghost use Rattle.swim_config.specs.Causes.{PutsLines, indented};
ghost use Rattle.swim_config.specs.Configuration.{is_printing};
ghost use Rattle.swim_config.specs.Hiding.{Adds, AddsByte, IsDetail, empty_end, end_behind, ends_at, may_be_shown};
ghost use Rattle.swim_config.specs.Hiding.{printed, shown_line};

use crate::line_ends::LineEnd;
use arrayvec::ArrayVec;
use itoa::Buffer;
use std::marker::Model;
use swim_text::Sink;
use swim_wire::{Piece, put_pieces};

/// The most bytes of a line, without the spaces before it.
pub const DETAIL_BYTES: usize = 160;

/// How many bytes are kept while a line is made: digits at the end of what is shown may be hidden as more follow, of
/// which there are at most 19.
const ROOM: usize = 179;

/// A line below the line of a fault: characters of ASCII that print, so that no terminal takes them for more than
/// text. No 12 hexadecimal digits stand in it in a row, so that no key is shown; but decimal digits behind a `=`, at
/// most 19, do. A contract sees the bytes, and whether hexadecimal digits that come next are left out.
#[derive(Drop)]
pub struct DetailLine {
    text: ArrayVec<u8, ROOM>,
    /// Whether the line ends with the mark of hidden digits, to which those that come next belong.
    is_hiding: bool,
}

impl Model for DetailLine {
    ghost use Rattle.swim_config.specs.Hiding.{Detail, IsDetail};

    ghost Value = { Detail };

    ghost view = { λ line. record { text = line.text.items; is_hiding = line.is_hiding } };

    ghost invariant = { λ line. IsDetail line.text.items };
}

impl DetailLine {
    /// A line with nothing in it.
    #[tactic(auto, using(crate::proofs::HiddenDigits::empty_detail))]
    pub fn new() -> DetailLine
        ensures { result ≡ shown_line [] }
    {
        DetailLine {
            text: ArrayVec::new(),
            is_hiding: false,
        }
    }

    /// Adds a text, as far as there is room, with a `?` for each byte that doesn't print, and `..` for 12 or more
    /// hexadecimal digits in a row that aren't the value of a number.
    #[tactic(auto, using(crate::proofs::HiddenDigits::adds_nothing, crate::proofs::HiddenDigits::adds_more))]
    pub fn add(&mut self, text: &[u8])
        ensures { Adds self.old text.now self.new }
    {
        for byte in text {
            self.push(*byte);
        }
    }

    /// Adds a byte, if there is room; or hides the digits of which it would be one too many.
    fn push(&mut self, byte: u8)
        ensures { AddsByte self.old (printed byte) self.new }
    {
        let byte = printed(byte);
        if self.is_hiding && byte.is_ascii_hexdigit() {
            return;
        }
        let end = LineEnd::of(self.text.as_slice());
        if end.behind(byte).may_be_shown() {
            self.show(byte);
        } else {
            self.cut(end.digits);
            self.add_mark();
        }
    }

    /// Adds a byte that may be shown, if there is room.
    fn show(&mut self, byte: u8)
        requires prints { is_printing byte ≡ true }
        requires shown { may_be_shown (end_behind (ends_at empty_end self.old.text) byte) ≡ true }
        ensures { AddsByte self.old byte self.new }
    {
        let _is_full = self.text.try_push(byte).is_err();
        self.is_hiding = false;
    }

    /// Takes so many bytes at the end out of it.
    fn cut(&mut self, bytes: usize) {
        let kept = self.text.len().saturating_sub(bytes);
        self.text.truncate(kept);
    }

    /// Adds the mark of hidden digits, to which those that come next belong.
    fn add_mark(&mut self) {
        let _is_full = self.text.try_extend_from_slice(b"..").is_err();
        self.is_hiding = true;
    }

    /// Adds a number, in decimal.
    pub fn add_number(&mut self, number: u64) {
        let mut digits = Buffer::new();
        self.add(digits.format(number).as_bytes());
    }

    /// Writes the line, and answers whether the sink took it.
    #[tactic(auto, using(crate::proofs::CauseLines::line_put))]
    pub fn put<W: Sink>(&self, writer: &mut W) -> bool
        ensures bytes { Puts (W.written writer.old) (W.written writer.new)
            (indented (take DETAIL_BYTES self.now.text)) result }
        ensures line { PutsLines (W.written writer.old) (W.written writer.new) result }
        ensures failures { W.failures writer.new ≡ failures_if (W.failures writer.old) result }
    {
        let pieces = [
            Piece::Text(b"  "),
            Piece::Text(self.shown()),
            Piece::Text(b"\n"),
        ];
        put_pieces(writer, &pieces)
    }

    /// What is shown of it.
    fn shown(&self) -> &[u8]
        ensures text { result.now ≡ take DETAIL_BYTES self.now.text }
        ensures detail { IsDetail result.now }
    {
        let text = self.text.as_slice();
        if text.len() <= DETAIL_BYTES {
            text
        } else {
            &text[..DETAIL_BYTES]
        }
    }
}

/// The byte, or a `?` where it doesn't print.
fn printed(byte: u8) -> u8
    ensures value { result ≡ printed byte }
    ensures prints { is_printing result ≡ true }
{
    if b' ' <= byte && byte <= b'~' {
        byte
    } else {
        b'?'
    }
}
