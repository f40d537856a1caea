//! Warnings of what anybody may guess: a seed or a key that is one byte again and again.

ghost use Rattle.std.specs.Prelude.{◌≡◌};
ghost use Rattle.std.specs.List.{list_any};
ghost use Rattle.swim_text.specs.Streams.{Puts, failures_if};
ghost use Rattle.swim_config.specs.Warnings.{guesses_text, is_plain, plain_keys_text, plain_seed_text};

use crate::config::Config;
use swim_keys::GroupKey;
use swim_text::Sink;

/// That the seed is one byte again and again, and then that a key is.
pub fn put_guesses<W: Sink>(writer: &mut W, config: &Config) -> bool
    ensures bytes { Puts (W.written writer.old) (W.written writer.new) (guesses_text config.now) result }
    ensures failures { W.failures writer.new ≡ failures_if (W.failures writer.old) result }
{
    if !put_seed(writer, &config.seed) {
        return false;
    }
    put_keys(writer, config.keys.as_slice())
}

/// That a seed is one byte again and again.
fn put_seed<W: Sink>(writer: &mut W, seed: &[u8; 32]) -> bool
    ensures bytes { Puts (W.written writer.old) (W.written writer.new) (plain_seed_text seed.now) result }
    ensures failures { W.failures writer.new ≡ failures_if (W.failures writer.old) result }
{
    if is_plain(seed) {
        writer.put(b"warning: seed is one byte again and again, which anybody may guess\n")
    } else {
        writer.put(b"")
    }
}

/// That one of these keys is one byte again and again.
fn put_keys<W: Sink>(writer: &mut W, keys: &[GroupKey]) -> bool
    ensures bytes { Puts (W.written writer.old) (W.written writer.new) (plain_keys_text keys.now) result }
    ensures failures { W.failures writer.new ≡ failures_if (W.failures writer.old) result }
{
    if has_plain(keys) {
        writer.put(
            b"warning: a key of the group is one byte again and again, which anybody may guess\n",
        )
    } else {
        writer.put(b"")
    }
}

/// Whether one of these keys is one byte again and again.
fn has_plain(keys: &[GroupKey]) -> bool
    ensures { result ≡ list_any is_plain keys.now }
{
    keys.iter().any(|key| is_plain(key.as_bytes()))
}

/// Whether all bytes are the first one.
fn is_plain(bytes: &[u8; 32]) -> bool
    ensures { result ≡ is_plain bytes.now }
{
    let first = bytes[0];
    bytes.iter().all(|byte| *byte == first)
}
