//! What a person is told of the end of a command.

ghost use Rattle.std.specs.Prelude.{◌≡◌, ◌++◌};
ghost use Rattle.swim_text.specs.Streams.{Puts, failures_if};
ghost use Rattle.swim_outcomes.specs.Details.{Explains};
ghost use Rattle.swim_outcomes.specs.Outcomes.{outcome_text};
ghost use Rattle.swim_outcomes.specs.Told.{Told};

use crate::details::Details;
use crate::outcomes::{Outcome, put_outcome};
use swim_text::Sink;

/// Tells an outcome, with what a person needs below it, and answers its status.
pub fn tell_outcome<F: Sink>(outcome: Outcome, details: &Details, faults: &mut F) -> u8
    requires { Explains outcome details.now }
    ensures { Told outcome (F.written faults.old) (F.written faults.new) (F.failures faults.old)
        (F.failures faults.new) result }
{
    let lines = details.as_slice();
    let _is_put = put_told(faults, outcome, lines);
    let _is_sent = faults.flush();
    outcome.status()
}

/// Writes the line of an outcome, and then those below it, and answers whether the sink took all of them.
#[tactic(auto, using(swim_text::specs::Streams::puts_then, swim_text::specs::Streams::puts_less))]
fn put_told<F: Sink>(faults: &mut F, outcome: Outcome, lines: &[u8]) -> bool
    ensures bytes { Puts (F.written faults.old) (F.written faults.new) (outcome_text outcome ++ lines.now) result }
    ensures failures { F.failures faults.new ≡ failures_if (F.failures faults.old) result }
{
    if !put_outcome(faults, outcome) {
        return false;
    }
    faults.put(lines)
}
