//! Paths as words of a shell's command.

ghost use Rattle.std.specs.List.{list_all};
ghost use Rattle.std.specs.Prelude.{◌≡◌, ◌++◌, codes};
ghost use Rattle.swim_text.specs.Streams.{Puts};
ghost use Rattle.swim_verdicts.specs.ShellWords.{is_plain, lead_of, quoted, quoted_sign, quoted_signs, shell_word};

use swim_text::Sink;

/// Puts a path that isn't empty as a word of a POSIX shell's command, whatever the file is called: the program gets
/// that path, and takes it neither for an option nor for standard input. Returns whether the writer took all of the
/// word.
#[tactic(auto, using(swim_text::specs::Streams::puts_then, swim_text::specs::Streams::puts_less))]
pub fn put_shell_word<W: Sink>(writer: &mut W, path: &[u8]) -> bool
    ensures { Puts (W.written writer.old) (W.written writer.new) (shell_word path.now) result }
{
    if !writer.put(lead_of(path)) {
        return false;
    }
    put_quoted(writer, path)
}

/// Returns what a path has in front, so that no program takes it for an option or for standard input.
fn lead_of(path: &[u8]) -> &'static [u8]
    ensures { result.now ≡ lead_of path.now }
{
    match path {
        [b'-', ..] => b"./",
        _ => b"",
    }
}

/// Puts a text as a shell takes it: between single quotes, unless each sign is plain.
fn put_quoted<W: Sink>(writer: &mut W, text: &[u8]) -> bool
    ensures { Puts (W.written writer.old) (W.written writer.new) (quoted text.now) result }
{
    if are_plain(text) {
        writer.put(text)
    } else {
        put_in_quotes(writer, text)
    }
}

/// Returns whether a shell takes each of these signs as it is.
fn are_plain(text: &[u8]) -> bool
    ensures { result ≡ list_all is_plain text.now }
{
    text.iter().all(|sign| is_plain(*sign))
}

/// Returns whether a shell takes a sign as it is: a letter, a digit, or one of `-./_`, of which all but the last stand
/// right before the digits.
fn is_plain(sign: u8) -> bool
    ensures { result ≡ is_plain sign }
{
    (b'-' <= sign && sign <= b'9')
        || (b'A' <= sign && sign <= b'Z')
        || sign == b'_'
        || (b'a' <= sign && sign <= b'z')
}

/// Puts a text between single quotes.
fn put_in_quotes<W: Sink>(writer: &mut W, text: &[u8]) -> bool
    ensures { Puts (W.written writer.old) (W.written writer.new) (codes "'" ++ quoted_signs text.now) result }
{
    if !writer.put(b"'") {
        return false;
    }
    put_signs(writer, text)
}

/// Puts signs that follow a single quote, and the quote that ends them.
fn put_signs<W: Sink>(writer: &mut W, text: &[u8]) -> bool
    ensures { Puts (W.written writer.old) (W.written writer.new) (quoted_signs text.now) result }
{
    let [first, others @ ..] = text else {
        return writer.put(b"'");
    };
    if !put_sign(writer, *first) {
        return false;
    }
    put_signs(writer, others)
}

/// Puts a sign between single quotes.
fn put_sign<W: Sink>(writer: &mut W, sign: u8) -> bool
    ensures { Puts (W.written writer.old) (W.written writer.new) (quoted_sign sign) result }
{
    match sign {
        b'\'' => writer.put(b"'\\''"),
        _ => writer.put(&[sign]),
    }
}
