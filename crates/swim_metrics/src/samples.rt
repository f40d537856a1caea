//! The lines of a metric's values, written to a sink. Each function answers whether the sink took its text.

ghost use Rattle.std.specs.Prelude.{◌≡◌, ◌++◌, codes, map};
ghost use Rattle.swim_text.specs.Streams.{Puts, failures_if};
ghost use Rattle.swim_metrics.specs.Families.{bucket_sample, dropped_samples, escaped, escaped_one, one_time};
ghost use Rattle.swim_metrics.specs.Families.{odd_samples, version_sample, wait_samples};
ghost use Rattle.swim_metrics.specs.Texts.{sample_text, samples_text};
ghost use Rattle.swim_metrics.specs.Told.{labelled_of, samples_of};

use crate::dropped::Dropped;
use crate::families::Samples;
use crate::key_samples::put_keys;
use crate::member_samples::put_members;
use crate::wait_histograms::{HistogramBucket, Waits};
use swim_text::Sink;
use swim_wire::{Id, Piece, put_pieces};

/// A metric of this member's, whose lines are written.
#[derive(Clone, Copy)]
pub(crate) struct Series<'a> {
    pub(crate) name: &'a str,
    pub(crate) me: Id,
}

/// A value: what follows the metric's name, the labels behind the member's, each with a comma in front, and the value.
#[derive(Clone, Copy)]
pub(crate) struct Labelled(&'static str, &'static str, u64);

/// A line for each value of a metric.
pub(crate) fn put_samples<'a, W: Sink>(
    writer: &mut W,
    series: &Series<'a>,
    samples: &Samples<'a>,
) -> bool
    ensures bytes { Puts (W.written writer.old) (W.written writer.new)
        (samples_text series.now.me series.now.name.now (samples_of samples.now)) result }
    ensures failures { W.failures writer.new ≡ failures_if (W.failures writer.old) result }
{
    match *samples {
        Samples::One(count) => put_each(writer, series, &[Labelled("", "", count)]),
        Samples::Milliseconds(milliseconds) => put_time(writer, series, milliseconds),
        Samples::Version(version) => put_version(writer, series, version),
        Samples::States { up, failed } => {
            let states = [
                Labelled("", ",state=\"up\"", up),
                Labelled("", ",state=\"failed\"", failed),
            ];
            put_each(writer, series, &states)
        }
        Samples::Acks { directly, by_relay } => {
            let acks = [
                Labelled("", ",from=\"target\"", directly),
                Labelled("", ",from=\"relay\"", by_relay),
            ];
            put_each(writer, series, &acks)
        }
        Samples::Dropped(dropped) => put_dropped(writer, series, dropped),
        Samples::Keys(fingerprints) => put_keys(writer, series, fingerprints),
        Samples::Waits(waits) => put_waits(writer, series, waits),
        Samples::Members(column, members) => put_members(writer, series, &column, members),
        Samples::OddSenders {
            unlisted,
            own_id,
            elsewhere,
        } => put_odd(writer, series, unlisted, own_id, elsewhere),
    }
}

/// A line for each of these values.
fn put_each<W: Sink>(writer: &mut W, series: &Series<'_>, values: &[Labelled]) -> bool
    ensures bytes { Puts (W.written writer.old) (W.written writer.new)
        (samples_text series.now.me series.now.name.now (map labelled_of values.now)) result }
    ensures failures { W.failures writer.new ≡ failures_if (W.failures writer.old) result }
{
    let [first, others @ ..] = values else {
        return writer.put(b"");
    };
    if !put_one(writer, series, *first) {
        return false;
    }
    put_each(writer, series, others)
}

fn put_one<W: Sink>(writer: &mut W, series: &Series<'_>, value: Labelled) -> bool
    ensures bytes { Puts (W.written writer.old) (W.written writer.new)
        (sample_text series.now.me series.now.name.now (labelled_of value)) result }
    ensures failures { W.failures writer.new ≡ failures_if (W.failures writer.old) result }
{
    let pieces = [
        Piece::Text(series.name.as_bytes()),
        Piece::Text(value.0.as_bytes()),
        Piece::Text(b"{member=\""),
        Piece::Number(u64::from(series.me.get())),
        Piece::Text(b"\""),
        Piece::Text(value.1.as_bytes()),
        Piece::Text(b"} "),
        Piece::Number(value.2),
        Piece::Text(b"\n"),
    ];
    put_pieces(writer, &pieces)
}

/// A time, in seconds.
fn put_time<W: Sink>(writer: &mut W, series: &Series<'_>, milliseconds: u64) -> bool
    ensures bytes { Puts (W.written writer.old) (W.written writer.new)
        (samples_text series.now.me series.now.name.now (one_time milliseconds)) result }
    ensures failures { W.failures writer.new ≡ failures_if (W.failures writer.old) result }
{
    let pieces = [
        Piece::Text(series.name.as_bytes()),
        Piece::Text(b"{member=\""),
        Piece::Number(u64::from(series.me.get())),
        Piece::Text(b"\"} "),
        Piece::Number(milliseconds / 1000),
        Piece::Text(b"."),
        Piece::Number(milliseconds / 100 % 10),
        Piece::Number(milliseconds / 10 % 10),
        Piece::Number(milliseconds % 10),
        Piece::Text(b"\n"),
    ];
    put_pieces(writer, &pieces)
}

fn put_dropped<W: Sink>(writer: &mut W, series: &Series<'_>, dropped: &Dropped) -> bool
    ensures bytes { Puts (W.written writer.old) (W.written writer.new)
        (samples_text series.now.me series.now.name.now (dropped_samples dropped.now)) result }
    ensures failures { W.failures writer.new ≡ failures_if (W.failures writer.old) result }
{
    let reasons = [
        Labelled("", ",reason=\"not_for_me\"", dropped.not_for_me),
        Labelled("", ",reason=\"borrowed\"", dropped.borrowed),
        Labelled("", ",reason=\"about_me\"", dropped.about_me),
        Labelled("", ",reason=\"unlisted\"", dropped.unlisted),
        Labelled("", ",reason=\"table_full\"", dropped.table_full),
        Labelled("", ",reason=\"stray\"", dropped.stray),
        Labelled("", ",reason=\"no_request\"", dropped.no_request),
    ];
    put_each(writer, series, &reasons)
}

fn put_odd<W: Sink>(
    writer: &mut W,
    series: &Series<'_>,
    unlisted: u64,
    own_id: u64,
    elsewhere: u64,
) -> bool
    ensures bytes { Puts (W.written writer.old) (W.written writer.new)
        (samples_text series.now.me series.now.name.now (odd_samples unlisted own_id elsewhere)) result }
    ensures failures { W.failures writer.new ≡ failures_if (W.failures writer.old) result }
{
    let counts = [
        Labelled("", ",why=\"unlisted\"", unlisted),
        Labelled("", ",why=\"own_id\"", own_id),
        Labelled("", ",why=\"elsewhere\"", elsewhere),
    ];
    put_each(writer, series, &counts)
}

/// A histogram: its buckets, all waits, their sum, and how many there were.
fn put_waits<W: Sink>(writer: &mut W, series: &Series<'_>, waits: &Waits) -> bool
    ensures bytes { Puts (W.written writer.old) (W.written writer.new)
        (samples_text series.now.me series.now.name.now (wait_samples waits.now)) result }
    ensures failures { W.failures writer.new ≡ failures_if (W.failures writer.old) result }
{
    if !put_buckets(writer, series, &waits.buckets) {
        return false;
    }
    let totals = [
        Labelled("_bucket", ",le=\"+Inf\"", waits.count),
        Labelled("_sum", "", waits.sum),
        Labelled("_count", "", waits.count),
    ];
    put_each(writer, series, &totals)
}

fn put_buckets<W: Sink>(writer: &mut W, series: &Series<'_>, buckets: &[HistogramBucket]) -> bool
    ensures bytes { Puts (W.written writer.old) (W.written writer.new)
        (samples_text series.now.me series.now.name.now (map bucket_sample buckets.now)) result }
    ensures failures { W.failures writer.new ≡ failures_if (W.failures writer.old) result }
{
    let [first, others @ ..] = buckets else {
        return writer.put(b"");
    };
    if !put_bucket(writer, series, first) {
        return false;
    }
    put_buckets(writer, series, others)
}

fn put_bucket<W: Sink>(writer: &mut W, series: &Series<'_>, bucket: &HistogramBucket) -> bool
    ensures bytes { Puts (W.written writer.old) (W.written writer.new)
        (sample_text series.now.me series.now.name.now (bucket_sample bucket.now)) result }
    ensures failures { W.failures writer.new ≡ failures_if (W.failures writer.old) result }
{
    let pieces = [
        Piece::Text(series.name.as_bytes()),
        Piece::Text(b"_bucket{member=\""),
        Piece::Number(u64::from(series.me.get())),
        Piece::Text(b"\",le=\""),
        Piece::Number(bucket.bound),
        Piece::Text(b"\"} "),
        Piece::Number(bucket.count),
        Piece::Text(b"\n"),
    ];
    put_pieces(writer, &pieces)
}

/// The version, as a label of the value 1.
fn put_version<W: Sink>(writer: &mut W, series: &Series<'_>, version: &str) -> bool
    ensures bytes { Puts (W.written writer.old) (W.written writer.new)
        (samples_text series.now.me series.now.name.now (version_sample version.now)) result }
    ensures failures { W.failures writer.new ≡ failures_if (W.failures writer.old) result }
{
    let pieces = [
        Piece::Text(series.name.as_bytes()),
        Piece::Text(b"{member=\""),
        Piece::Number(u64::from(series.me.get())),
        Piece::Text(b"\",version=\""),
    ];
    if !put_pieces(writer, &pieces) {
        return false;
    }
    put_version_on(writer, version.as_bytes())
}

fn put_version_on<W: Sink>(writer: &mut W, version: &[u8]) -> bool
    ensures bytes { Puts (W.written writer.old) (W.written writer.new) (escaped version.now ++ codes "\"} 1\n") result }
    ensures failures { W.failures writer.new ≡ failures_if (W.failures writer.old) result }
{
    if !put_escaped(writer, version) {
        return false;
    }
    writer.put(b"\"} 1\n")
}

/// A text within quotes.
fn put_escaped<W: Sink>(writer: &mut W, text: &[u8]) -> bool
    ensures bytes { Puts (W.written writer.old) (W.written writer.new) (escaped text.now) result }
    ensures failures { W.failures writer.new ≡ failures_if (W.failures writer.old) result }
{
    let [first, others @ ..] = text else {
        return writer.put(b"");
    };
    if !put_character(writer, *first) {
        return false;
    }
    put_escaped(writer, others)
}

fn put_character<W: Sink>(writer: &mut W, character: u8) -> bool
    ensures bytes { Puts (W.written writer.old) (W.written writer.new) (escaped_one character) result }
    ensures failures { W.failures writer.new ≡ failures_if (W.failures writer.old) result }
{
    match character {
        b'\n' => writer.put(b"\\n"),
        b'"' => writer.put(b"\\\""),
        b'\\' => writer.put(b"\\\\"),
        _ => writer.put(&[character]),
    }
}
