//! Texts that the program shows: its help, its version, a key.

ghost use Rattle.std.specs.Prelude.{◌≡◌};
ghost use Rattle.swim_checks.specs.Texts.{Helps};

use swim_outcomes::Outcome;
use swim_text::Sink;

/// Writes a text, and hands it on.
pub fn help<W: Sink>(text: &[u8], writer: &mut W) -> Outcome
    ensures helps { Helps text.now (W.written writer.old) (W.written writer.new) result }
    ensures sent { result ≡ Outcome.Helped → W.held writer.new ≡ 0 }
{
    if writer.put(text) && writer.flush() {
        Outcome::Helped
    } else {
        Outcome::Unwritten
    }
}
