//! The lines of the group's keys, written to a sink. Each function answers whether the sink took its text.

ghost use Rattle.std.specs.Prelude.{◌≡◌, ◌+◌, ◌≤◌, length};
ghost use Rattle.swim_text.specs.Streams.{Puts, failures_if};
ghost use Rattle.swim_metrics.specs.Families.{key_sample, key_samples};
ghost use Rattle.swim_metrics.specs.Texts.{sample_text, samples_text};

use crate::outside::{Fingerprint, Fingerprints, MOST_FINGERPRINTS};
use crate::samples::Series;
use swim_text::Sink;
use swim_wire::{Piece, put_pieces};

/// Writes the lines of a group's keys.
pub(crate) fn put_keys<'a, W: Sink>(
    writer: &mut W,
    series: &Series<'a>,
    fingerprints: &'a Fingerprints,
) -> bool
    ensures bytes { Puts (W.written writer.old) (W.written writer.new)
        (samples_text series.now.me series.now.name.now (key_samples 0 fingerprints.now.items)) result }
    ensures failures { W.failures writer.new ≡ failures_if (W.failures writer.old) result }
{
    put_keys_behind(writer, series, 0, fingerprints.as_slice())
}

/// Writes the lines of keys, in front of which so many stand.
fn put_keys_behind<'a, W: Sink>(
    writer: &mut W,
    series: &Series<'a>,
    before: u64,
    fingerprints: &'a [Fingerprint],
) -> bool
    requires { before + length fingerprints.now ≤ MOST_FINGERPRINTS }
    ensures bytes { Puts (W.written writer.old) (W.written writer.new)
        (samples_text series.now.me series.now.name.now (key_samples before fingerprints.now)) result }
    ensures failures { W.failures writer.new ≡ failures_if (W.failures writer.old) result }
{
    let [first, others @ ..] = fingerprints else {
        return writer.put(b"");
    };
    if !put_key(writer, series, before + 1, first) {
        return false;
    }
    put_keys_behind(writer, series, before + 1, others)
}

/// Writes the line of a key at a place.
fn put_key<'a, W: Sink>(
    writer: &mut W,
    series: &Series<'a>,
    place: u64,
    fingerprint: &'a Fingerprint,
) -> bool
    ensures bytes { Puts (W.written writer.old) (W.written writer.new)
        (sample_text series.now.me series.now.name.now (key_sample place fingerprint.now)) result }
    ensures failures { W.failures writer.new ≡ failures_if (W.failures writer.old) result }
{
    let pieces = [
        Piece::Text(series.name.as_bytes()),
        Piece::Text(b"{member=\""),
        Piece::Number(u64::from(series.me.get())),
        Piece::Text(b"\",place=\""),
        Piece::Number(place),
        Piece::Text(b"\",fingerprint=\""),
        Piece::Text(fingerprint),
        Piece::Text(b"\"} 1\n"),
    ];
    put_pieces(writer, &pieces)
}
