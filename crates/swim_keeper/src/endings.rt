//! The lines that tell how lives ended.

ghost use Rattle.std.specs.Prelude.{◌≡◌, ◌++◌};
ghost use Rattle.swim_text.specs.Streams.{Puts, failures_if};
ghost use Rattle.swim_telling.specs.Telling.{TellsText};
ghost use Rattle.swim_keeper.specs.Endings.{TellsEnd, TellsLife, cut_text, ended_text, is_stopped_full};
ghost use Rattle.swim_keeper.specs.Endings.{life_text, past_text, stopped_text};

use itoa::Buffer;
use swim_crew::Past;
use swim_text::Sink;
use swim_wire::{Piece, put_pieces};
use swim_work::Why;

/// The line of a life that was stopped at once.
const STOPPED: &[u8] = b"ended stopped entries 0 judged 0 unsent 0 wire 0 refused 0\n";

/// Writes the line of the life with this number: how it ended, and whether its journal was cut. If the life was told to
/// stop while its journal was full, the line of an end follows, as if the next life had been stopped at once. A line
/// that can't be written changes nothing else.
pub fn tell_end<W: Sink>(writer: &mut W, number: u64, past: &Past, is_cut: bool)
    ensures { TellsEnd number past.now is_cut (W.written writer.old, W.failures writer.old)
        (W.written writer.new, W.failures writer.new) }
{
    tell_life(writer, number, past, is_cut);
    if is_stopped_full(past) {
        tell_stopped(writer);
    }
}

/// Returns whether a life was told to stop while its journal was full.
fn is_stopped_full(past: &Past) -> bool
    ensures { result ≡ is_stopped_full past.now }
{
    match past.why {
        Why::JournalFull => past.is_stopped(),
        Why::NoMemory | Why::Socket | Why::Stopped => false,
    }
}

/// Writes the line of a life.
fn tell_life<W: Sink>(writer: &mut W, number: u64, past: &Past, is_cut: bool)
    ensures { TellsLife number past.now is_cut (W.written writer.old, W.failures writer.old)
        (W.written writer.new, W.failures writer.new) }
{
    let _is_put = match past.why {
        Why::JournalFull => put_life(writer, number, past, is_cut),
        Why::NoMemory | Why::Socket | Why::Stopped => put_ended(writer, past, is_cut),
    };
    let _is_sent = writer.flush();
}

/// Writes the line of a life that was stopped at once.
fn tell_stopped<W: Sink>(writer: &mut W)
    ensures { TellsText stopped_text (W.written writer.old, W.failures writer.old)
        (W.written writer.new, W.failures writer.new) }
{
    let _is_put = writer.put(STOPPED);
    let _is_sent = writer.flush();
}

/// Writes the line of the last life: why it ended, and its counts. Returns whether the sink took it.
fn put_ended<W: Sink>(writer: &mut W, past: &Past, is_cut: bool) -> bool
    ensures bytes { Puts (W.written writer.old) (W.written writer.new) (ended_text past.now is_cut) result }
    ensures failures { W.failures writer.new ≡ failures_if (W.failures writer.old) result }
{
    put_line(writer, b"ended ", past.why.text(), past, is_cut)
}

/// Writes the line of a life whose journal was full: its number, and its counts. Returns whether the sink took it.
fn put_life<W: Sink>(writer: &mut W, number: u64, past: &Past, is_cut: bool) -> bool
    ensures bytes { Puts (W.written writer.old) (W.written writer.new) (life_text number past.now is_cut) result }
    ensures failures { W.failures writer.new ≡ failures_if (W.failures writer.old) result }
{
    let mut digits = Buffer::new();
    put_line(
        writer,
        b"life ",
        digits.format(number).as_bytes(),
        past,
        is_cut,
    )
}

/// Writes a line of a life: its first word, what follows it, and its counts.
fn put_line<'a, W: Sink>(
    writer: &mut W,
    word: &'a [u8],
    name: &'a [u8],
    past: &Past,
    is_cut: bool,
) -> bool
    ensures bytes { Puts (W.written writer.old) (W.written writer.new)
        (word.now ++ (name.now ++ past_text past.now is_cut)) result }
    ensures failures { W.failures writer.new ≡ failures_if (W.failures writer.old) result }
{
    let pieces = [
        Piece::Text(word),
        Piece::Text(name),
        Piece::Text(b" entries "),
        Piece::Number(u64::from(past.journal.len())),
        Piece::Text(b" judged "),
        Piece::Number(u64::from(past.journal.judged_count())),
        Piece::Text(b" unsent "),
        Piece::Number(past.unsent()),
        Piece::Text(b" wire "),
        Piece::Number(past.wire()),
        Piece::Text(b" refused "),
        Piece::Number(past.refused()),
        Piece::Text(cut_text(is_cut)),
        Piece::Text(b"\n"),
    ];
    put_pieces(writer, &pieces)
}

/// Returns what the line says of a journal that was cut.
fn cut_text(is_cut: bool) -> &'static [u8]
    ensures { result.now ≡ cut_text is_cut }
{
    if is_cut { b" journal cut" } else { b"" }
}
