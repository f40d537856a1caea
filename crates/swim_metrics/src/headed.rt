//! Values of metrics, with what each metric tells and its type in front of its own.

ghost use Rattle.std.specs.Prelude.{◌≡◌, ◌++◌};
ghost use Rattle.swim_history.specs.Texts.{feed};
ghost use Rattle.swim_text.specs.Streams.{Puts, failures_if};
ghost use Rattle.swim_metrics.specs.Headed.{first_of, follows, head_if, headed, headed_in, is_named, is_of};

use crate::heads::{ALL_METRICS, Metric, MetricKind};
use crate::metric_texts::put_head;
use swim_text::{Sink, cut};
use swim_wire::{Piece, put_pieces};

/// How many lines are looked at at most. The answer to `stats` has some seventy, and at most six of each member.
const MOST_LINES: usize = 1_024;

/// Writes the values of metrics, a line each, as the answer to `stats` has them, in the exposition format of Prometheus:
/// in front of the first line of each metric stand what it tells and its type. A line of no metric stands as it is, and so
/// does what follows 1,024 lines.
pub fn put_headed<W: Sink>(writer: &mut W, lines: &[u8]) -> bool
    ensures bytes { Puts (W.written writer.old) (W.written writer.new) (headed lines.now) result }
    ensures failures { W.failures writer.new ≡ failures_if (W.failures writer.old) result }
{
    put_behind(writer, MOST_LINES, None, lines)
}

/// The same of so many lines, behind one of that metric, if it was of one.
fn put_behind<W: Sink>(writer: &mut W, most: usize, before: Option<Metric>, lines: &[u8]) -> bool
    ensures bytes { Puts (W.written writer.old) (W.written writer.new) (headed_in most before lines.now) result }
    ensures failures { W.failures writer.new ≡ failures_if (W.failures writer.old) result }
{
    if most == 0 {
        return writer.put(lines);
    }
    let Some((line, others)) = cut(lines, b'\n') else {
        return writer.put(lines);
    };
    let metric = first_of(&ALL_METRICS, line);
    if !put_one(writer, before, metric, line) {
        return false;
    }
    put_behind(writer, most - 1, metric, others)
}

/// A line of a metric, if it is of one, behind one of that other metric.
fn put_one<W: Sink>(
    writer: &mut W,
    before: Option<Metric>,
    metric: Option<Metric>,
    line: &[u8],
) -> bool
    ensures bytes { Puts (W.written writer.old) (W.written writer.new) (head_if before metric ++ (line.now ++ feed)) result }
    ensures failures { W.failures writer.new ≡ failures_if (W.failures writer.old) result }
{
    if !put_head_if(writer, before, metric) {
        return false;
    }
    put_line(writer, line)
}

/// What stands in front of a line of a metric, if it is of one and the line before is of another.
fn put_head_if<W: Sink>(writer: &mut W, before: Option<Metric>, metric: Option<Metric>) -> bool
    ensures bytes { Puts (W.written writer.old) (W.written writer.new) (head_if before metric) result }
    ensures failures { W.failures writer.new ≡ failures_if (W.failures writer.old) result }
{
    match metric {
        Some(metric) if !is_named(before, metric) => {
            let head = metric.head();
            put_head(writer, head.name, head.help, head.kind)
        }
        _ => writer.put(b""),
    }
}

/// A line, with its line feed.
fn put_line<W: Sink>(writer: &mut W, line: &[u8]) -> bool
    ensures bytes { Puts (W.written writer.old) (W.written writer.new) (line.now ++ feed) result }
    ensures failures { W.failures writer.new ≡ failures_if (W.failures writer.old) result }
{
    let pieces = [Piece::Text(line), Piece::Text(b"\n")];
    put_pieces(writer, &pieces)
}

/// Whether there is a metric, and it has the name of another.
fn is_named(before: Option<Metric>, metric: Metric) -> bool
    ensures { result ≡ is_named before metric }
{
    match before {
        Some(before) => before.head().name == metric.head().name,
        None => false,
    }
}

/// The first of these metrics of which a line is.
fn first_of(metrics: &[Metric], line: &[u8]) -> Option<Metric>
    ensures { result ≡ first_of metrics.now line.now }
{
    let [first, others @ ..] = metrics else {
        return None;
    };
    if is_of(*first, line) {
        return Some(*first);
    }
    first_of(others, line)
}

/// Whether a line is a value of a metric.
fn is_of(metric: Metric, line: &[u8]) -> bool
    ensures { result ≡ is_of metric line.now }
{
    let head = metric.head();
    let name = head.name.as_bytes();
    // What follows on the name is looked at first: it is a byte for most, and names begin alike.
    let rest = line.get(name.len()..).unwrap_or_default();
    follows(head.kind, rest) && line.starts_with(name)
}

/// Whether labels follow on the name, or what a histogram has in front of them.
fn follows(kind: MetricKind, rest: &[u8]) -> bool
    ensures { result ≡ follows kind rest.now }
{
    match kind {
        MetricKind::Counter | MetricKind::Gauge => rest.starts_with(b"{"),
        MetricKind::Histogram => {
            rest.starts_with(b"_bucket{")
                || rest.starts_with(b"_sum{")
                || rest.starts_with(b"_count{")
        }
    }
}
