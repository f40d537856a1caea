//! The texts that tell the metrics, written to a sink. Each function answers whether the sink took its text.

ghost use Rattle.std.specs.Prelude.{◌≡◌, filter};
ghost use Rattle.swim_text.specs.Streams.{Puts, failures_if};
ghost use Rattle.swim_metrics.specs.Families.{family_of, is_told};
ghost use Rattle.swim_metrics.specs.Texts.{exposition_text, family_lines, family_text, form_texts, head_text, kind_text};
ghost use Rattle.swim_metrics.specs.Texts.{samples_text, stats_text, text_if_told};

use crate::heads::{ALL_METRICS, Metric, MetricKind};
use crate::measures::Measures;
use crate::outside::Outside;
use crate::samples::{Series, put_samples};
use swim_text::Sink;
use swim_wire::{Piece, put_pieces};

/// The two texts that tell the metrics.
#[derive(Clone, Copy)]
pub(crate) enum TextForm {
    /// In front of the values of each metric stand what it tells and its type.
    Exposition,
    /// The values alone.
    Stats,
}

/// Writes the metrics in the exposition format of Prometheus: of each what it tells, its type, and its values.
pub fn put_exposition<W: Sink>(writer: &mut W, measures: &Measures, outside: &Outside<'_>) -> bool
    ensures bytes { Puts (W.written writer.old) (W.written writer.new)
        (exposition_text measures.now outside.now) result }
    ensures failures { W.failures writer.new ≡ failures_if (W.failures writer.old) result }
{
    put_told(
        writer,
        measures,
        outside,
        TextForm::Exposition,
        &ALL_METRICS,
    )
}

/// Writes the values of the metrics, a line for each, and a dot.
pub fn put_stats<W: Sink>(writer: &mut W, measures: &Measures, outside: &Outside<'_>) -> bool
    ensures bytes { Puts (W.written writer.old) (W.written writer.new) (stats_text measures.now outside.now) result }
    ensures failures { W.failures writer.new ≡ failures_if (W.failures writer.old) result }
{
    if !put_told(writer, measures, outside, TextForm::Stats, &ALL_METRICS) {
        return false;
    }
    writer.put(b".\n")
}

/// Those of these metrics that are told.
#[tactic(auto, using(crate::proofs::Forms::told_more, crate::proofs::Forms::told_failed))]
fn put_told<W: Sink>(
    writer: &mut W,
    measures: &Measures,
    outside: &Outside<'_>,
    form: TextForm,
    metrics: &[Metric],
) -> bool
    ensures bytes { Puts (W.written writer.old) (W.written writer.new)
        (form_texts form measures.now outside.now (filter (is_told outside.now) metrics.now)) result }
    ensures failures { W.failures writer.new ≡ failures_if (W.failures writer.old) result }
{
    for metric in metrics {
        if !put_if_told(writer, measures, outside, form, *metric) {
            return false;
        }
    }
    true
}

/// A metric, if it is told.
fn put_if_told<W: Sink>(
    writer: &mut W,
    measures: &Measures,
    outside: &Outside<'_>,
    form: TextForm,
    metric: Metric,
) -> bool
    ensures bytes { Puts (W.written writer.old) (W.written writer.new) (text_if_told form measures.now outside.now metric)
        result }
    ensures failures { W.failures writer.new ≡ failures_if (W.failures writer.old) result }
{
    if !outside.tells(metric) {
        return writer.put(b"");
    }
    match form {
        TextForm::Exposition => put_metric(writer, measures, outside, metric),
        TextForm::Stats => put_values(writer, measures, outside, metric),
    }
}

/// A metric: what it tells, its type, and its values.
fn put_metric<W: Sink>(
    writer: &mut W,
    measures: &Measures,
    outside: &Outside<'_>,
    metric: Metric,
) -> bool
    ensures bytes { Puts (W.written writer.old) (W.written writer.new)
        (family_text outside.now.me (family_of measures.now outside.now metric)) result }
    ensures failures { W.failures writer.new ≡ failures_if (W.failures writer.old) result }
{
    let family = metric.family(measures, outside);
    if !put_head(writer, family.name, family.help, family.kind) {
        return false;
    }
    let series = Series {
        name: family.name,
        me: outside.me,
    };
    put_samples(writer, &series, &family.samples)
}

/// The values of a metric.
fn put_values<W: Sink>(
    writer: &mut W,
    measures: &Measures,
    outside: &Outside<'_>,
    metric: Metric,
) -> bool
    ensures bytes { Puts (W.written writer.old) (W.written writer.new)
        (family_lines outside.now.me (family_of measures.now outside.now metric)) result }
    ensures failures { W.failures writer.new ≡ failures_if (W.failures writer.old) result }
{
    let family = metric.family(measures, outside);
    let series = Series {
        name: family.name,
        me: outside.me,
    };
    put_samples(writer, &series, &family.samples)
}

/// What a metric tells, and its type.
pub(crate) fn put_head<'a, W: Sink>(
    writer: &mut W,
    name: &'a str,
    help: &'a str,
    kind: MetricKind,
) -> bool
    ensures bytes { Puts (W.written writer.old) (W.written writer.new) (head_text name.now help.now kind) result }
    ensures failures { W.failures writer.new ≡ failures_if (W.failures writer.old) result }
{
    let pieces = [
        Piece::Text(b"# HELP "),
        Piece::Text(name.as_bytes()),
        Piece::Text(b" "),
        Piece::Text(help.as_bytes()),
        Piece::Text(b"\n# TYPE "),
        Piece::Text(name.as_bytes()),
        Piece::Text(b" "),
        Piece::Text(kind_name(kind)),
        Piece::Text(b"\n"),
    ];
    put_pieces(writer, &pieces)
}

fn kind_name(kind: MetricKind) -> &'static [u8]
    ensures { result.now ≡ kind_text kind }
{
    match kind {
        MetricKind::Counter => b"counter",
        MetricKind::Gauge => b"gauge",
        MetricKind::Histogram => b"histogram",
    }
}
