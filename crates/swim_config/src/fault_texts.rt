//! The text of a configuration's fault.

ghost use Rattle.std.specs.Prelude.{◌≡◌, ◌++◌};
ghost use Rattle.swim_text.specs.Streams.{Puts, failures_if};
ghost use Rattle.swim_history.specs.Texts.{feed};
ghost use Rattle.swim_config.specs.FaultTexts.{fault_text};
ghost use Rattle.swim_config.specs.Keys.{key_text};

use crate::config_fault::ConfigFault;
use crate::keys::ConfigKey;
use swim_history::OpeningFault;
use swim_text::Sink;
use swim_wire::{Piece, put_pieces};

/// Writes the line of a fault, and answers whether the sink took it.
pub fn put_fault<W: Sink>(writer: &mut W, fault: ConfigFault) -> bool
    ensures bytes { Puts (W.written writer.old) (W.written writer.new) (fault_text fault) result }
    ensures failures { W.failures writer.new ≡ failures_if (W.failures writer.old) result }
{
    match fault {
        ConfigFault::Size => writer.put(b"configuration 1\n"),
        ConfigFault::Document => writer.put(b"configuration 2\n"),
        ConfigFault::UnknownKey => writer.put(b"configuration 3\n"),
        ConfigFault::Missing(key) => put_key_fault(writer, b"configuration 4 ", key),
        ConfigFault::Kind(key) => put_key_fault(writer, b"configuration 5 ", key),
        ConfigFault::Range(key) => put_key_fault(writer, b"configuration 6 ", key),
        ConfigFault::Peer(key) => put_key_fault(writer, b"configuration 7 ", key),
        ConfigFault::Seed => writer.put(b"configuration 8 seed\n"),
        ConfigFault::Opening(fault) => put_opening_fault(writer, fault),
        ConfigFault::NoMemory => writer.put(b"no memory\n"),
    }
}

/// The line of a fault that names its key.
fn put_key_fault<W: Sink>(writer: &mut W, words: &[u8], key: ConfigKey) -> bool
    ensures bytes { Puts (W.written writer.old) (W.written writer.new) (words.now ++ (key_text key ++ feed)) result }
    ensures failures { W.failures writer.new ≡ failures_if (W.failures writer.old) result }
{
    let pieces = [
        Piece::Text(words),
        Piece::Text(key.text().as_bytes()),
        Piece::Text(b"\n"),
    ];
    put_pieces(writer, &pieces)
}

/// The line of an opening that is refused.
fn put_opening_fault<W: Sink>(writer: &mut W, fault: OpeningFault) -> bool
    ensures bytes { Puts (W.written writer.old) (W.written writer.new) (fault_text (ConfigFault.Opening fault)) result }
    ensures failures { W.failures writer.new ≡ failures_if (W.failures writer.old) result }
{
    let number = u64::from(fault.number());
    let pieces = [
        Piece::Text(b"configuration 9 "),
        Piece::Number(number),
        Piece::Text(b"\n"),
    ];
    put_pieces(writer, &pieces)
}
