//! Warnings of an ack that is hardly waited for, and of a group in which nobody relays.

ghost use Rattle.std.specs.Prelude.{◌≡◌, length};
ghost use Rattle.swim_text.specs.Streams.{Puts, failures_if};
ghost use Rattle.swim_config.specs.Warnings.{no_relays_line, no_relays_text, one_tick_line, one_tick_text};
ghost use Rattle.swim_config.specs.Warnings.{rtt_ms, short_rtt_line, short_rtt_text, ticks_and_relays_text, waits_text};

use crate::config::Config;
use swim_text::Sink;
use swim_wire::{Piece, put_pieces};

/// That a direct ack is hardly waited for, and what follows.
pub fn put_waits<W: Sink>(writer: &mut W, config: &Config) -> bool
    ensures bytes { Puts (W.written writer.old) (W.written writer.new) (waits_text config.now) result }
    ensures failures { W.failures writer.new ≡ failures_if (W.failures writer.old) result }
{
    if !put_rtt(writer, config) {
        return false;
    }
    put_ticks_and_relays(writer, config)
}

/// That it is waited for a short tick alone, and then that nobody relays.
fn put_ticks_and_relays<W: Sink>(writer: &mut W, config: &Config) -> bool
    ensures bytes { Puts (W.written writer.old) (W.written writer.new) (ticks_and_relays_text config.now) result }
    ensures failures { W.failures writer.new ≡ failures_if (W.failures writer.old) result }
{
    if !put_ticks(writer, config) {
        return false;
    }
    put_relays(writer, config)
}

/// That a direct ack is waited for less than ten milliseconds.
fn put_rtt<W: Sink>(writer: &mut W, config: &Config) -> bool
    ensures bytes { Puts (W.written writer.old) (W.written writer.new) (short_rtt_text (rtt_ms config.now)) result }
    ensures failures { W.failures writer.new ≡ failures_if (W.failures writer.old) result }
{
    put_short_rtt(writer, rtt_ms(config))
}

/// That it is waited for one tick, which is shorter than twenty milliseconds.
fn put_ticks<W: Sink>(writer: &mut W, config: &Config) -> bool
    ensures bytes { Puts (W.written writer.old) (W.written writer.new)
        (one_tick_text config.now.opening.rtt config.now.tick_ms) result }
    ensures failures { W.failures writer.new ≡ failures_if (W.failures writer.old) result }
{
    put_one_tick(writer, config.opening.rtt(), u64::from(config.tick_ms))
}

/// That no relay is asked, though there are some.
fn put_relays<W: Sink>(writer: &mut W, config: &Config) -> bool
    ensures bytes { Puts (W.written writer.old) (W.written writer.new)
        (no_relays_text config.now.opening.k (length config.now.opening.rows)) result }
    ensures failures { W.failures writer.new ≡ failures_if (W.failures writer.old) result }
{
    let members = config.opening.rows();
    put_no_relays(writer, config.opening.k(), members.len() as u64)
}

/// How long a direct ack is waited for, in milliseconds.
fn rtt_ms(config: &Config) -> u64
    ensures { result ≡ rtt_ms config.now }
{
    u64::from(config.opening.rtt()) * u64::from(config.tick_ms)
}

fn put_short_rtt<W: Sink>(writer: &mut W, milliseconds: u64) -> bool
    ensures bytes { Puts (W.written writer.old) (W.written writer.new) (short_rtt_text milliseconds) result }
    ensures failures { W.failures writer.new ≡ failures_if (W.failures writer.old) result }
{
    if milliseconds < 10 {
        put_short_rtt_line(writer, milliseconds)
    } else {
        writer.put(b"")
    }
}

fn put_short_rtt_line<W: Sink>(writer: &mut W, milliseconds: u64) -> bool
    ensures bytes { Puts (W.written writer.old) (W.written writer.new) (short_rtt_line milliseconds) result }
    ensures failures { W.failures writer.new ≡ failures_if (W.failures writer.old) result }
{
    let pieces = [
        Piece::Text(b"warning: rtt has "),
        Piece::Number(milliseconds),
        Piece::Text(b" milliseconds, which is below 10\n"),
    ];
    put_pieces(writer, &pieces)
}

fn put_one_tick<W: Sink>(writer: &mut W, rtt: u32, tick_ms: u64) -> bool
    ensures bytes { Puts (W.written writer.old) (W.written writer.new) (one_tick_text rtt tick_ms) result }
    ensures failures { W.failures writer.new ≡ failures_if (W.failures writer.old) result }
{
    if rtt == 1 && tick_ms < 20 {
        put_one_tick_line(writer, tick_ms)
    } else {
        writer.put(b"")
    }
}

fn put_one_tick_line<W: Sink>(writer: &mut W, tick_ms: u64) -> bool
    ensures bytes { Puts (W.written writer.old) (W.written writer.new) (one_tick_line tick_ms) result }
    ensures failures { W.failures writer.new ≡ failures_if (W.failures writer.old) result }
{
    let pieces = [
        Piece::Text(b"warning: rtt is one tick of "),
        Piece::Number(tick_ms),
        Piece::Text(b" milliseconds, which is below 20\n"),
    ];
    put_pieces(writer, &pieces)
}

fn put_no_relays<W: Sink>(writer: &mut W, relays: u32, members: u64) -> bool
    ensures bytes { Puts (W.written writer.old) (W.written writer.new) (no_relays_text relays members) result }
    ensures failures { W.failures writer.new ≡ failures_if (W.failures writer.old) result }
{
    if relays == 0 && 2 < members {
        put_no_relays_line(writer, members)
    } else {
        writer.put(b"")
    }
}

fn put_no_relays_line<W: Sink>(writer: &mut W, members: u64) -> bool
    ensures bytes { Puts (W.written writer.old) (W.written writer.new) (no_relays_line members) result }
    ensures failures { W.failures writer.new ≡ failures_if (W.failures writer.old) result }
{
    let pieces = [
        Piece::Text(b"warning: k is 0, so that none of "),
        Piece::Number(members),
        Piece::Text(b" members is asked to relay\n"),
    ];
    put_pieces(writer, &pieces)
}
