//! What a configuration was expected to say, where it has a fault.

ghost use Rattle.std.specs.Prelude.{◌≡◌, ◌++◌, codes};
ghost use Rattle.swim_text.specs.Streams.{Puts, failures_if};
ghost use Rattle.swim_config.specs.Causes.{expected_as, expected_of, expected_text, purpose_text, rule_text};

use crate::config_fault::ConfigFault;
use crate::keys::{ConfigKey, ValueForm};
use swim_history::OpeningFault;
use swim_text::Sink;
use swim_wire::{Piece, put_pieces};

/// Writes what was expected, and answers whether the sink took it.
pub fn put_expected<W: Sink>(writer: &mut W, fault: ConfigFault) -> bool
    ensures bytes { Puts (W.written writer.old) (W.written writer.new) (expected_text fault) result }
    ensures failures { W.failures writer.new ≡ failures_if (W.failures writer.old) result }
{
    match fault {
        ConfigFault::Size => writer.put(b"  expected: at most 65536 bytes\n"),
        ConfigFault::Document => writer.put(b"  expected: a TOML document, in UTF-8\n"),
        ConfigFault::Missing(key)
        | ConfigFault::Kind(key)
        | ConfigFault::Range(key)
        | ConfigFault::Peer(key) => put_expected_of(writer, key),
        ConfigFault::Seed => put_expected_of(writer, ConfigKey::Seed),
        ConfigFault::Opening(fault) => put_rule(writer, fault),
        ConfigFault::UnknownKey | ConfigFault::NoMemory => writer.put(b""),
    }
}

/// What the value of a key has to be.
fn put_expected_of<W: Sink>(writer: &mut W, key: ConfigKey) -> bool
    ensures bytes { Puts (W.written writer.old) (W.written writer.new) (expected_of key) result }
    ensures failures { W.failures writer.new ≡ failures_if (W.failures writer.old) result }
{
    put_form(writer, key.form(), key.about().as_bytes())
}

/// What a value has to be that is for this.
fn put_form<W: Sink>(writer: &mut W, form: ValueForm, about: &[u8]) -> bool
    ensures bytes { Puts (W.written writer.old) (W.written writer.new) (expected_as form about.now) result }
    ensures failures { W.failures writer.new ≡ failures_if (W.failures writer.old) result }
{
    match form {
        ValueForm::Number(least, most) => put_range(writer, least, most, about),
        ValueForm::Peer => put_text(writer, b"a string IP:PORT, as 10.0.0.1:7000", about),
        ValueForm::Path => put_text(
            writer,
            b"a string of 1 to 100 characters of ASCII that print",
            about,
        ),
        ValueForm::Mode => put_text(
            writer,
            b"a string of a 0 and 3 octal digits, as 0660",
            about,
        ),
        ValueForm::Seed => put_text(writer, b"a string of 64 hexadecimal digits", about),
        ValueForm::Keys => put_text(
            writer,
            b"an array of 1 to 4 strings of 64 hexadecimal digits",
            about,
        ),
        ValueForm::Members => put_text(writer, b"an array of tables, each with id and at", about),
    }
}

/// That a number was expected.
fn put_range<W: Sink>(writer: &mut W, least: u64, most: u64, about: &[u8]) -> bool
    ensures bytes { Puts (W.written writer.old) (W.written writer.new)
        (expected_as (ValueForm.Number least most) about.now) result }
    ensures failures { W.failures writer.new ≡ failures_if (W.failures writer.old) result }
{
    let pieces = [
        Piece::Text(b"  expected: "),
        Piece::Text(b"an integer from "),
        Piece::Number(least),
        Piece::Text(b" to "),
        Piece::Number(most),
        Piece::Text(b" ("),
        Piece::Text(about),
        Piece::Text(b")\n"),
    ];
    put_pieces(writer, &pieces)
}

/// That something else was expected.
fn put_text<'a, W: Sink>(writer: &mut W, form: &'a [u8], about: &'a [u8]) -> bool
    ensures bytes { Puts (W.written writer.old) (W.written writer.new)
        (codes "  expected: " ++ (form.now ++ purpose_text about.now)) result }
    ensures failures { W.failures writer.new ≡ failures_if (W.failures writer.old) result }
{
    let pieces = [
        Piece::Text(b"  expected: "),
        Piece::Text(form),
        Piece::Text(b" ("),
        Piece::Text(about),
        Piece::Text(b")\n"),
    ];
    put_pieces(writer, &pieces)
}

/// The rule that an opening broke.
fn put_rule<W: Sink>(writer: &mut W, fault: OpeningFault) -> bool
    ensures bytes { Puts (W.written writer.old) (W.written writer.new) (rule_text fault) result }
    ensures failures { W.failures writer.new ≡ failures_if (W.failures writer.old) result }
{
    match fault {
        OpeningFault::Relays => writer.put(b"  expected: k of at most 8\n"),
        OpeningFault::Timing => {
            writer.put(b"  expected: rtt of at least 1, and period from three times rtt to 65535\n")
        }
        OpeningFault::TooManyRows => writer.put(b"  expected: at most 128 members\n"),
        OpeningFault::Myself => writer.put(b"  expected: members with other ids than this one\n"),
        OpeningFault::Twice => writer.put(b"  expected: each member once\n"),
    }
}
