//! Warnings of what a verdict takes away: a relay from the member that it judged, and that member from the group.

ghost use Rattle.std.specs.Prelude.{◌≡◌, length};
ghost use Rattle.swim_text.specs.Streams.{Puts, failures_if};
ghost use Rattle.swim_config.specs.Warnings.{first_wire_text, is_first, no_return_text, verdicts_text};

use crate::config::Config;
use swim_text::Sink;
use swim_wire::Version;

/// That a relay is no path to a member that it judged itself, and then that no daemon brings a failed member back.
pub fn put_verdicts<W: Sink>(writer: &mut W, config: &Config) -> bool
    ensures bytes { Puts (W.written writer.old) (W.written writer.new) (verdicts_text config.now) result }
    ensures failures { W.failures writer.new ≡ failures_if (W.failures writer.old) result }
{
    if !put_wire(writer, config) {
        return false;
    }
    put_return(writer, config)
}

/// That a relay is no path to a member that it judged itself.
fn put_wire<W: Sink>(writer: &mut W, config: &Config) -> bool
    ensures bytes { Puts (W.written writer.old) (W.written writer.new)
        (first_wire_text config.now.opening.version config.now.opening.k) result }
    ensures failures { W.failures writer.new ≡ failures_if (W.failures writer.old) result }
{
    put_first_wire(writer, config.opening.version(), config.opening.k())
}

/// That no daemon brings a failed member back.
fn put_return<W: Sink>(writer: &mut W, config: &Config) -> bool
    ensures bytes { Puts (W.written writer.old) (W.written writer.new)
        (no_return_text config.now.rejoin (length config.now.opening.rows)) result }
    ensures failures { W.failures writer.new ≡ failures_if (W.failures writer.old) result }
{
    let members = config.opening.rows();
    put_no_return(writer, config.rejoin, members.len() as u64)
}

fn put_first_wire<W: Sink>(writer: &mut W, version: Version, relays: u32) -> bool
    ensures bytes { Puts (W.written writer.old) (W.written writer.new) (first_wire_text version relays) result }
    ensures failures { W.failures writer.new ≡ failures_if (W.failures writer.old) result }
{
    if is_first(version) && 0 < relays {
        writer.put(b"warning: wire is 1, so that a relay that judged a member is no path to it\n")
    } else {
        writer.put(b"")
    }
}

fn put_no_return<W: Sink>(writer: &mut W, rejoin: u32, members: u64) -> bool
    ensures bytes { Puts (W.written writer.old) (W.written writer.new) (no_return_text rejoin members) result }
    ensures failures { W.failures writer.new ≡ failures_if (W.failures writer.old) result }
{
    if rejoin == 0 && 0 < members {
        writer.put(
            b"warning: rejoin is 0, so that only an operator's join brings a failed member back\n",
        )
    } else {
        writer.put(b"")
    }
}

/// Whether it is version 1.
fn is_first(version: Version) -> bool
    ensures { result ≡ is_first version }
{
    match version {
        Version::One => true,
        Version::Two => false,
    }
}
