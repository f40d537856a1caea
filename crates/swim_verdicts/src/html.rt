//! Texts in HTML.

ghost use Rattle.swim_text.specs.Streams.{Puts};
ghost use Rattle.swim_verdicts.specs.VerdictPages.{html_sign, html_text};

use swim_text::Sink;

/// Puts a text as HTML shows it: no sign of it is a tag or a part of one. Returns whether the writer took all of it.
pub fn put_html<W: Sink>(writer: &mut W, text: &[u8]) -> bool
    ensures { Puts (W.written writer.old) (W.written writer.new) (html_text text.now) result }
{
    let [first, others @ ..] = text else {
        return writer.put(b"");
    };
    if !put_sign(writer, *first) {
        return false;
    }
    put_html(writer, others)
}

/// Puts a sign as HTML shows it.
fn put_sign<W: Sink>(writer: &mut W, sign: u8) -> bool
    ensures { Puts (W.written writer.old) (W.written writer.new) (html_sign sign) result }
{
    match sign {
        b'<' => writer.put(b"&lt;"),
        b'&' => writer.put(b"&amp;"),
        _ => writer.put(&[sign]),
    }
}
