//! Texts within XML, written to a sink. Each function returns whether the sink took its text.

ghost use Rattle.std.specs.Prelude.{◌≡◌};
ghost use Rattle.swim_text.specs.Streams.{Puts, failures_if};
ghost use Rattle.swim_chart.specs.Frame.{escaped, escaped_one};

use swim_text::Sink;

/// Writes a text.
pub(crate) fn put_escaped<W: Sink>(writer: &mut W, text: &[u8]) -> bool
    ensures bytes { Puts (W.written writer.old) (W.written writer.new) (escaped text.now) result }
    ensures failures { W.failures writer.new ≡ failures_if (W.failures writer.old) result }
{
    let [first, others @ ..] = text else {
        return writer.put(b"");
    };
    if !put_character(writer, *first) {
        return false;
    }
    put_escaped(writer, others)
}

/// Writes a character.
fn put_character<W: Sink>(writer: &mut W, character: u8) -> bool
    ensures bytes { Puts (W.written writer.old) (W.written writer.new) (escaped_one character) result }
    ensures failures { W.failures writer.new ≡ failures_if (W.failures writer.old) result }
{
    match character {
        b'&' => writer.put(b"&amp;"),
        b'<' => writer.put(b"&lt;"),
        _ => writer.put(&[character]),
    }
}
