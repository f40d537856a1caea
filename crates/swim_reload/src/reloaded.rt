//! The answer to a reload: which keys need a start.

ghost use Rattle.std.specs.Prelude.{◌≡◌, ◌≤◌, length};
ghost use Rattle.swim_text.specs.Streams.{Puts, failures_if};
ghost use Rattle.swim_reload.specs.Reloaded.{end_text, reloaded_text, start_text, told_text, told_texts};

use crate::in_force::{START_KEYS, is_in_force};
use swim_config::{Config, ConfigKey};
use swim_text::Sink;
use swim_wire::{Piece, put_pieces};

/// The most bytes of the answer, which tells all keys then.
pub const RELOADED_BYTES: usize = 439;

/// Writes that the configuration file was read again, and which keys need a start, and answers whether the sink took it.
/// `started` is what the file said as the daemon started, `read` what it says now.
pub fn put_reloaded<W: Sink>(writer: &mut W, started: &Config, read: &Config) -> bool
    ensures bytes { Puts (W.written writer.old) (W.written writer.new) (reloaded_text started.now read.now) result }
    ensures failures { W.failures writer.new ≡ failures_if (W.failures writer.old) result }
    ensures size { length (reloaded_text started.now read.now) ≤ RELOADED_BYTES }
{
    if !writer.put(b"reloaded") {
        return false;
    }
    put_end(writer, started, read)
}

/// Which keys need a start, and the end of the line.
fn put_end<W: Sink>(writer: &mut W, started: &Config, read: &Config) -> bool
    ensures bytes { Puts (W.written writer.old) (W.written writer.new) (end_text started.now read.now) result }
    ensures failures { W.failures writer.new ≡ failures_if (W.failures writer.old) result }
{
    if !put_keys(writer, started, read, &START_KEYS) {
        return false;
    }
    writer.put(b"\n")
}

/// Those of these keys that need a start.
fn put_keys<W: Sink>(writer: &mut W, started: &Config, read: &Config, keys: &[ConfigKey]) -> bool
    ensures bytes { Puts (W.written writer.old) (W.written writer.new)
        (told_texts started.now read.now keys.now) result }
    ensures failures { W.failures writer.new ≡ failures_if (W.failures writer.old) result }
{
    let [key, others @ ..] = keys else {
        return writer.put(b"");
    };
    if !put_key(writer, started, read, key) {
        return false;
    }
    put_keys(writer, started, read, others)
}

/// That a key needs a start, if it does.
fn put_key<W: Sink>(writer: &mut W, started: &Config, read: &Config, key: &ConfigKey) -> bool
    ensures bytes { Puts (W.written writer.old) (W.written writer.new)
        (told_text started.now read.now key.now) result }
    ensures failures { W.failures writer.new ≡ failures_if (W.failures writer.old) result }
{
    if is_in_force(*key, started, read) {
        writer.put(b"")
    } else {
        put_start(writer, *key)
    }
}

/// That a key needs a start.
fn put_start<W: Sink>(writer: &mut W, key: ConfigKey) -> bool
    ensures bytes { Puts (W.written writer.old) (W.written writer.new) (start_text key) result }
    ensures failures { W.failures writer.new ≡ failures_if (W.failures writer.old) result }
{
    let pieces = [
        Piece::Text(b"; "),
        Piece::Text(key.name().as_bytes()),
        Piece::Text(b" needs a start"),
    ];
    put_pieces(writer, &pieces)
}
