//! How long ago members were judged failed: the rows of a member table with the ages of their verdicts.

ghost use Rattle.std.specs.Prelude.{◌≡◌, ◌-◌, ◌<◌, Some, IfSome};
ghost use Rattle.std.specs.Option.{option_map};
ghost use Rattle.swim_text.specs.Streams.{Puts};
ghost use Rattle.swim_text.specs.Words.{words_by, words_of};
ghost use Rattle.swim_commands.specs.Ages.{aged, aged_line, are_digits, dated, failed_of, has_failed, milliseconds_of};
ghost use Rattle.swim_commands.specs.Ages.{periods_in, seconds_since, span_of, thousandths_of, value_in, value_of};

use swim_text::{Sink, Words, cut, read_number};
use swim_wire::{Piece, put_pieces};

/// The most whole seconds that a period may last.
const MOST_SECONDS: u64 = 4_294_967_295;

/// The periods of a daemon, as its counts tell them.
#[derive(Clone, Copy)]
struct Periods {
    /// The number of the period that runs.
    running: u64,
    /// How long a period lasts, in milliseconds.
    milliseconds: u64,
}

impl Periods {
    /// Returns the whole seconds from the end of a period to the one that runs, which counts as over.
    fn seconds_since(&self, number: u64) -> u64
        ensures { result ≡ seconds_since self.now number }
    {
        let periods = self.running.saturating_sub(number);
        periods.saturating_mul(self.milliseconds) / 1000
    }
}

/// Returns whether a member of these rows was judged failed.
pub fn has_failed(answer: &[u8]) -> bool
    ensures { result ≡ has_failed (words_by 10 answer.now) }
{
    let mut lines = Words::split(answer, b'\n');
    while let Some(line) = lines.next() {
        if failed_of(line).is_some() {
            return true;
        }
    }
    false
}

/// Writes a member table with the ages of its verdicts, by a daemon's counts, and as it is if they tell no periods.
/// Returns whether the sink took all of it.
pub fn put_aged<W: Sink>(answer: &[u8], counts: &[u8], writer: &mut W) -> bool
    ensures { Puts (W.written writer.old) (W.written writer.new) (aged (periods_in counts.now) answer.now) result }
{
    match periods_in(counts) {
        None => writer.put(answer),
        Some(periods) => put_lines(answer, &periods, writer),
    }
}

/// Writes each line of a member table, with the age of its verdict.
#[tactic(auto, using(crate::proofs::LineTexts::none_written, crate::proofs::LineTexts::all_written, crate::proofs::LineTexts::write_failed))]
fn put_lines<W: Sink>(answer: &[u8], periods: &Periods, writer: &mut W) -> bool
    ensures { Puts (W.written writer.old) (W.written writer.new) (aged (Some periods.now) answer.now) result }
{
    let mut lines = Words::split(answer, b'\n');
    while let Some(line) = lines.next() {
        if !put_line(line, periods, writer) {
            return false;
        }
    }
    true
}

/// Writes a line with the age of its verdict.
fn put_line<W: Sink>(line: &[u8], periods: &Periods, writer: &mut W) -> bool
    ensures { Puts (W.written writer.old) (W.written writer.new) (aged_line periods.now line.now) result }
{
    if line.is_empty() {
        return writer.put(b"");
    }
    match failed_of(line) {
        Some(number) => {
            let (count, unit) = span_of(periods.seconds_since(number));
            put_dated(line, count, unit, writer)
        }
        None => put_pieces(writer, &[Piece::Text(line), Piece::Text(b"\n")]),
    }
}

/// Writes a line with a time behind it: so many of that unit.
fn put_dated<'x, W: Sink>(line: &'x [u8], count: u64, unit: &'x str, writer: &mut W) -> bool
    ensures { Puts (W.written writer.old) (W.written writer.new) (dated line.now (count, unit.now)) result }
{
    let pieces = [
        Piece::Text(line),
        Piece::Text(b", about "),
        Piece::Number(count),
        Piece::Text(b" "),
        Piece::Text(unit.as_bytes()),
        Piece::Text(b" ago\n"),
    ];
    put_pieces(writer, &pieces)
}

/// Returns a time in the unit that people would use, and that unit.
fn span_of(seconds: u64) -> (u64, &'static str)
    ensures { (result.0, result.1.now) ≡ span_of seconds }
{
    if seconds < 120 {
        (seconds, "s")
    } else if seconds < 7_200 {
        (seconds / 60, "min")
    } else if seconds < 172_800 {
        (seconds / 3_600, "h")
    } else {
        (seconds / 86_400, "days")
    }
}

/// Returns the number of the period in the row of a failed member, and `None` of any other line.
fn failed_of(line: &[u8]) -> Option<u64>
    ensures { result ≡ failed_of line.now }
{
    let mut words = Words::new(line);
    let _id = words.next()?;
    let _peer = words.next()?;
    let state = words.next()?;
    let number = words.next()?;
    if state != b"failed".as_slice() {
        return None;
    }
    read_number(number, u64::MAX)
}

/// Returns the periods that counts tell, if they do.
fn periods_in(counts: &[u8]) -> Option<Periods>
    ensures { result ≡ periods_in counts.now }
{
    let running = read_number(value_of(counts, b"swimd_period_number{")?, u64::MAX)?;
    let milliseconds = milliseconds_of(value_of(counts, b"swimd_period_seconds{")?)?;
    Some(Periods {
        running,
        milliseconds,
    })
}

/// Returns the value of the first line of counts whose sample begins so.
fn value_of<'a>(counts: &'a [u8], front: &[u8]) -> Option<&'a [u8]>
    ensures { option_map (λ value. value.now) result ≡ value_of front.now (words_by 10 counts.now) }
{
    let mut lines = Words::split(counts, b'\n');
    while let Some(line) = lines.next() {
        if let Some(value) = value_in(line, front) {
            return Some(value);
        }
    }
    None
}

/// Returns the value of a line of counts whose sample begins so, and `None` of any other.
fn value_in<'a>(line: &'a [u8], front: &[u8]) -> Option<&'a [u8]>
    ensures { option_map (λ value. value.now) result ≡ value_in front.now (words_of line.now) }
{
    let mut words = Words::new(line);
    let sample = words.next()?;
    let value = words.next()?;
    if !sample.starts_with(front) {
        return None;
    }
    Some(value)
}

/// Returns the milliseconds of a text of seconds with three places behind the point, and `None` of any other.
fn milliseconds_of(seconds: &[u8]) -> Option<u64>
    ensures { result ≡ milliseconds_of seconds.now }
{
    let (whole, places) = cut(seconds, b'.')?;
    let whole = read_number(whole, MOST_SECONDS)?;
    let places = thousandths_of(places)?;
    Some(1000 * whole + places)
}

/// Returns the thousandths that three digits are, and `None` of any other text.
fn thousandths_of(text: &[u8]) -> Option<u64>
    ensures exact { result ≡ thousandths_of text.now }
    ensures small { IfSome result (λ places. places < 65536) }
{
    if text.len() != 3 || !are_digits(text) {
        return None;
    }
    Some(100 * digit(text[0]) + 10 * digit(text[1]) + digit(text[2]))
}

/// Returns whether each byte is a digit.
fn are_digits(text: &[u8]) -> bool
    ensures { result ≡ are_digits text.now }
{
    text.iter().all(|byte| b'0' <= *byte && *byte <= b'9')
}

/// Returns the number of a digit.
fn digit(byte: u8) -> u64
    ensures { result ≡ byte - 48 }
{
    u64::from(byte.saturating_sub(b'0'))
}
