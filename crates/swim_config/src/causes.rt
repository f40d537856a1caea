//! The lines below the line of a configuration's fault.

ghost use Rattle.std.specs.Prelude.{◌≡◌};
ghost use Rattle.swim_text.specs.Streams.{failures_if};
ghost use Rattle.swim_config.specs.Causes.{Causes};

use crate::config_fault::ConfigFault;
use crate::expected::put_expected;
use crate::found::put_found;
use std::alloc::Global;
use swim_text::Sink;

/// Writes what was expected where a configuration of these bytes has that fault, what stood there, and in which line;
/// and answers whether the sink took it. Where memory is refused less is told.
pub fn put_cause<W: Sink>(alloc: Global, writer: &mut W, bytes: &[u8], fault: ConfigFault) -> bool
    ensures bytes { Causes fault (W.written writer.old) (W.written writer.new) result }
    ensures failures { W.failures writer.new ≡ failures_if (W.failures writer.old) result }
{
    if !put_expected(writer, fault) {
        return false;
    }
    put_found(alloc, writer, bytes, fault)
}
