//! Numbers as text, written to a sink. Each function answers whether the sink took its text.

ghost use Rattle.std.specs.Prelude.{◌≡◌, ◌++◌, decimal};
ghost use Rattle.swim_text.specs.Streams.{Puts, failures_if};

use crate::streams::Sink;
use itoa::Buffer;

/// A number, in decimal.
pub fn put_number<W: Sink>(writer: &mut W, number: u64) -> bool
    ensures bytes { Puts (W.written writer.old) (W.written writer.new) (decimal number) result }
    ensures failures { W.failures writer.new ≡ failures_if (W.failures writer.old) result }
{
    let mut digits = Buffer::new();
    writer.put(digits.format(number).as_bytes())
}

/// A word and a number.
pub fn put_numbered<W: Sink>(writer: &mut W, word: &[u8], number: u64) -> bool
    ensures bytes { Puts (W.written writer.old) (W.written writer.new) (word.now ++ decimal number) result }
    ensures failures { W.failures writer.new ≡ failures_if (W.failures writer.old) result }
{
    if !writer.put(word) {
        return false;
    }
    put_number(writer, number)
}
