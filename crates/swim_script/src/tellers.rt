//! Who has the answers of a script written.

ghost use Rattle.std.specs.Prelude.{◌≡◌};
ghost use Rattle.swim_text.specs.Streams.{Puts, failures_if};
ghost use Rattle.swim_script.specs.Outcomes.{outcome_text};

use crate::outcomes::LineOutcome;
use crate::session::Session;
use swim_text::Sink;

/// Who writes what came of each line. Where a contract sees the bytes of the writer, they are the answers and nothing
/// else. So whoever has more to say writes to a sink whose bytes no contract sees.
pub trait Teller<W: Sink> {
    /// Writes what came of the newest line of that session. It answers whether the sink took all of it.
    fn put(&mut self, session: &Session, outcome: &LineOutcome, writer: &mut W) -> bool
        ensures bytes { Puts (W.written writer.old) (W.written writer.new)
            (outcome_text session.now.recorded outcome.now) result }
        ensures failures { W.failures writer.new ≡ failures_if (W.failures writer.old) result };
}

/// Who writes the answers and nothing else.
#[derive(Drop)]
pub struct PlainTeller {}

impl<W: Sink> Teller<W> for PlainTeller {
    #[inline(always)]
    fn put(&mut self, session: &Session, outcome: &LineOutcome, writer: &mut W) -> bool {
        session.put(outcome, writer)
    }
}
