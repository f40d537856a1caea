//! Calls of the detector, and what comes of them.

ghost use Rattle.std.specs.Prelude.{◌≡◌, Bool, ℕ, List, Option};
ghost use Rattle.swim_text.specs.Streams.{Puts};
ghost use Rattle.swim_script.specs.Holds.{Answers};
ghost use Rattle.swim_script.specs.Outcomes.{asked_of, text_with};
ghost use Rattle.swim_script.specs.Script.Asked.{Calls};

use crate::choosers::Drawer;
use crate::outcomes::LineOutcome;
use swim_detector::{ApplyFault, Recorder};
use swim_history::Call;

/// Makes a call, and answers what came of it. Once that is written, or its writer failed at it, the call is answered.
#[tactic(auto, using(crate::proofs::Outcoming::made_by))]
#[inline(always)]
pub fn make_call(recorder: &mut Recorder<Drawer>, call: &Call) -> LineOutcome
    ensures told { (before after : Option (List ℕ)) (done : Bool) → Puts before after (text_with recorder.new result) done →
        Answers recorder.old recorder.new call.now before after done }
    ensures asked { asked_of result ≡ Calls call.now }
{
    match recorder.record(0, *call) {
        Ok(()) => LineOutcome::Made(*call),
        Err(ApplyFault::JournalFull) => LineOutcome::Full(*call),
        Err(ApplyFault::NoMemory) => LineOutcome::NoMemory(*call),
    }
}
