//! Runs whose answers nobody reads.

ghost use Rattle.std.specs.Prelude.{◌≡◌, None, not};
ghost use Rattle.swim_script.specs.Ends.{unplayed};
ghost use Rattle.swim_script.specs.Outcomes.{outcome_text};
ghost use Rattle.swim_text.specs.Streams.{Puts, failures_if};
ghost use Rattle.swim_verdicts.specs.Verifying.{is_refused};

use std::io::Read;
use swim_script::{LineOutcome, ScriptFault, Session, Teller};
use swim_text::{ReadSource, Sink};

/// Takes answers, and keeps none.
#[derive(Drop)]
struct Unheard {
    failures: u64,
}

impl Sink for Unheard {
    ghost written = { λ s. None };

    ghost failures = { λ s. s.failures };

    ghost held = { λ s. 0 };

    fn put(&mut self, _text: &[u8]) -> bool {
        true
    }

    fn flush(&mut self) -> bool {
        true
    }
}

/// Has all answers taken but that to a call which was refused memory: the run ends there, as if it couldn't be written.
#[derive(Drop)]
struct MemoryTeller {}

impl Teller<Unheard> for MemoryTeller {
    #[tactic(auto, using(crate::specs::Unseen::puts_unseen))]
    fn put(&mut self, session: &Session, outcome: &LineOutcome, writer: &mut Unheard) -> bool
        ensures bytes { Puts None None (outcome_text session.now.recorded outcome.now) result }
        ensures failures { writer.new.failures ≡ failures_if writer.old.failures result }
        ensures refused { result ≡ not (is_refused outcome.now) }
    {
        if is_refused(outcome) {
            writer.failures = writer.failures.saturating_add(1);
            return false;
        }
        true
    }
}

/// Whether memory for a call was refused.
fn is_refused(outcome: &LineOutcome) -> bool
    ensures { result ≡ is_refused outcome.now }
{
    match outcome {
        LineOutcome::NoMemory(_) => true,
        LineOutcome::Made(_)
        | LineOutcome::Full(_)
        | LineOutcome::Unread(_)
        | LineOutcome::Table
        | LineOutcome::Gap(_) => false,
    }
}

/// Plays a script, and reads no answer. The fault `write` stands for a call that was refused memory: nothing else makes
/// it, and no line behind that call is played.
#[inline(never)]
pub fn play_unheard<R: Read + Drop>(session: &mut Session, script: R) -> Result<(), ScriptFault>
    requires { session.old ≡ unplayed }
{
    let mut reader = ReadSource::new(script);
    let mut writer = Unheard { failures: 0 };
    swim_script::play(session, &mut reader, &mut writer, &mut MemoryTeller {})
}
