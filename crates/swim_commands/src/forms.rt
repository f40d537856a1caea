//! How the answers of a daemon are written: as they are, with names behind their numbers and the ages of verdicts, or as
//! the tables of a configuration.

ghost use Rattle.std.specs.Prelude.{◌≡◌, []};
ghost use Rattle.swim_text.specs.Streams.{Puts};
ghost use Rattle.swim_commands.specs.Forms.{explained, is_unmet, named, needs_counts, shown, with_name};

use crate::ages::{has_failed, put_aged};
use crate::answers::is_refusal;
use crate::member_tables::{is_table, put_tables};
use crate::names::name_of;
use swim_text::Sink;
use swim_wire::{Piece, put_pieces};

/// How answers are written.
#[derive(Clone, Copy)]
pub enum Form {
    /// As they are.
    Plain,
    /// With the name of what they tell by a number behind it, and in a member table with the ages of its verdicts.
    Explained,
    /// As the tables of a configuration, one for each member.
    Tables,
}

/// Writes an answer in a form, with the ages of verdicts by these counts of its daemon. Returns whether the sink took
/// all of it.
pub fn put_shown<W: Sink>(form: Form, answer: &[u8], counts: &[u8], writer: &mut W) -> bool
    ensures { Puts (W.written writer.old) (W.written writer.new) (shown form counts.now answer.now) result }
{
    match form {
        Form::Plain => writer.put(answer),
        Form::Explained => put_explained(answer, counts, writer),
        Form::Tables => put_table(answer, writer),
    }
}

/// Returns whether the daemon's counts are needed to write an answer: it is a member table with a verdict, to be
/// explained.
pub fn needs_counts(form: Form, answer: &[u8]) -> bool
    ensures { result ≡ needs_counts form answer.now }
{
    match form {
        Form::Explained => is_table(answer) && has_failed(answer),
        Form::Plain | Form::Tables => false,
    }
}

/// Whether an answer says that what was asked was not done, or isn't the table that was asked for.
pub fn is_unmet(form: Form, answer: &[u8]) -> bool
    ensures { result ≡ is_unmet form answer.now }
{
    match form {
        Form::Plain | Form::Explained => is_refusal(answer),
        Form::Tables => !is_table(answer),
    }
}

/// Writes an answer with the name of what it tells by a number, and a member table with the ages of its verdicts.
fn put_explained<W: Sink>(answer: &[u8], counts: &[u8], writer: &mut W) -> bool
    ensures { Puts (W.written writer.old) (W.written writer.new) (explained counts.now answer.now) result }
{
    if !is_table(answer) {
        return put_with_name(answer, writer);
    }
    put_aged(answer, counts, writer)
}

/// Writes an answer with the name of what it tells by a number, if it tells anything so.
fn put_with_name<W: Sink>(answer: &[u8], writer: &mut W) -> bool
    ensures { Puts (W.written writer.old) (W.written writer.new) (with_name answer.now) result }
{
    let name = name_of(answer);
    if name.is_empty() {
        return writer.put(answer);
    }
    put_named(answer, name, writer)
}

/// Writes an answer of one line with a name behind it.
fn put_named<'x, W: Sink>(answer: &'x [u8], name: &'x str, writer: &mut W) -> bool
    ensures { Puts (W.written writer.old) (W.written writer.new) (named answer.now name.now) result }
{
    let end = answer.len().saturating_sub(1);
    let pieces = [
        Piece::Text(&answer[..end]),
        Piece::Text(b" "),
        Piece::Text(name.as_bytes()),
        Piece::Text(b"\n"),
    ];
    put_pieces(writer, &pieces)
}

/// Writes an answer as tables, and one that is no member table as it is.
fn put_table<W: Sink>(answer: &[u8], writer: &mut W) -> bool
    ensures { Puts (W.written writer.old) (W.written writer.new) (shown Form.Tables [] answer.now) result }
{
    if is_table(answer) {
        put_tables(answer, writer)
    } else {
        writer.put(answer)
    }
}
