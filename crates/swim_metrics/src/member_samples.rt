//! The lines of what is told of each member, written to a sink. Each function answers whether the sink took its text.

ghost use Rattle.std.specs.Prelude.{◌≡◌, ◌∷◌, []};
ghost use Rattle.swim_text.specs.Streams.{Puts, failures_if};
ghost use Rattle.swim_metrics.specs.Families.{column_of, heard_sample, member_acks, member_sample, member_samples};
ghost use Rattle.swim_metrics.specs.Texts.{samples_text};

use crate::families::Column;
use crate::member_figures::MemberFigures;
use crate::samples::Series;
use swim_text::Sink;
use swim_wire::{Id, Piece, put_pieces};

/// Writes the lines of each member.
pub(crate) fn put_members<W: Sink>(
    writer: &mut W,
    series: &Series<'_>,
    column: &Column,
    members: &[MemberFigures],
) -> bool
    ensures bytes { Puts (W.written writer.old) (W.written writer.new)
        (samples_text series.now.me series.now.name.now (member_samples column.now members.now)) result }
    ensures failures { W.failures writer.new ≡ failures_if (W.failures writer.old) result }
{
    let [first, others @ ..] = members else {
        return writer.put(b"");
    };
    if !put_member(writer, series, column, first) {
        return false;
    }
    put_members(writer, series, column, others)
}

/// Writes the lines of a member.
fn put_member<W: Sink>(
    writer: &mut W,
    series: &Series<'_>,
    column: &Column,
    member: &MemberFigures,
) -> bool
    ensures bytes { Puts (W.written writer.old) (W.written writer.new)
        (samples_text series.now.me series.now.name.now (column_of column.now member.now)) result }
    ensures failures { W.failures writer.new ≡ failures_if (W.failures writer.old) result }
{
    let (id, tally) = (member.id, &member.tally);
    match *column {
        Column::Up => put_figure(writer, series, id, b"", u64::from(member.is_up)),
        Column::Heard => put_heard(writer, series, id, tally.heard),
        Column::Acks => put_acks(writer, series, id, tally.directly, tally.by_relay),
        Column::Verdicts => put_figure(writer, series, id, b"", tally.verdicts),
        Column::Asked => put_figure(writer, series, id, b"", tally.asked),
    }
}

/// Writes in which period a member was last heard, if it was.
fn put_heard<W: Sink>(writer: &mut W, series: &Series<'_>, id: Id, heard: Option<u64>) -> bool
    ensures bytes { Puts (W.written writer.old) (W.written writer.new)
        (samples_text series.now.me series.now.name.now (heard_sample id heard)) result }
    ensures failures { W.failures writer.new ≡ failures_if (W.failures writer.old) result }
{
    match heard {
        Some(number) => put_figure(writer, series, id, b"", number),
        None => writer.put(b""),
    }
}

/// Writes how many acks of a member came from itself, and how many from relays.
fn put_acks<W: Sink>(
    writer: &mut W,
    series: &Series<'_>,
    id: Id,
    directly: u64,
    by_relay: u64,
) -> bool
    ensures bytes { Puts (W.written writer.old) (W.written writer.new)
        (samples_text series.now.me series.now.name.now (member_acks id directly by_relay)) result }
    ensures failures { W.failures writer.new ≡ failures_if (W.failures writer.old) result }
{
    if !put_figure(writer, series, id, b",from=\"target\"", directly) {
        return false;
    }
    put_figure(writer, series, id, b",from=\"relay\"", by_relay)
}

/// Writes a number of a member, with those labels behind its id.
fn put_figure<'a, W: Sink>(
    writer: &mut W,
    series: &Series<'a>,
    id: Id,
    labels: &'a [u8],
    number: u64,
) -> bool
    ensures bytes { Puts (W.written writer.old) (W.written writer.new)
        (samples_text series.now.me series.now.name.now (member_sample id labels.now number ∷ [])) result }
    ensures failures { W.failures writer.new ≡ failures_if (W.failures writer.old) result }
{
    let pieces = [
        Piece::Text(series.name.as_bytes()),
        Piece::Text(b"{member=\""),
        Piece::Number(u64::from(series.me.get())),
        Piece::Text(b"\",id=\""),
        Piece::Number(u64::from(id.get())),
        Piece::Text(b"\""),
        Piece::Text(labels),
        Piece::Text(b"} "),
        Piece::Number(number),
        Piece::Text(b"\n"),
    ];
    put_pieces(writer, &pieces)
}
