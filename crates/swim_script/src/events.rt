//! The event lines of a script.

ghost use Rattle.std.specs.Prelude.{◌≡◌, ◌≢◌, ◌+◌, ◌<◌, Bool, ℕ, List, Option, Some, None, false, not, MatchResult};
ghost use Rattle.std.specs.Prelude.{◌⊎◌};
ghost use Rattle.std.specs.Prelude.{OnOk, IfSome, MatchBool, MatchOption};
ghost use Rattle.swim_text.specs.Streams.{Puts, failures_if};
ghost use Rattle.swim_detector.specs.Recording.{IsLatest};
ghost use Rattle.swim_script.specs.Texts.{newest_text};
ghost use Rattle.swim_script.specs.Script.{is_write, result_kind};
ghost use Rattle.swim_script.specs.Holds.{Started, Called, PlaysLine, ShowsLine, HearsLine, Tells, TellsOther};
ghost use Rattle.swim_script.specs.Outcomes.{asked_of, outcome_text, text_with};
ghost use Rattle.swim_script.specs.Script.Asked.{Calls};

use crate::answers::put_placed;
use crate::arguments::AnswerText;
use crate::choosers::Drawer;
use crate::faults::{FaultKind, ScriptFault};
use crate::headers::Header;
use crate::outcomes::{LineOutcome, put_outcome};
use crate::playing::make_call;
use crate::session::Session;
use crate::tellers::Teller;
use std::alloc::Global;
use std::mem;
use swim_detector::Recorder;
use swim_history::{Call, Opening, Reply};
use swim_text::{Page, Sink};
use swim_wire::{Message, Peer, WireFault};

impl Session {
    /// At the first event line, checks the opening and opens the recorder.
    fn start(&mut self) -> Result<(), ScriptFault>
        ensures started { Started self.old self.new result }
        ensures open { OnOk result (self.new.recorded ≢ None) }
        ensures same { self.new.lines ≡ self.old.lines }
        ensures unread { result_kind result ≢ Some FaultKind.Read }
        ensures written { is_write result ≡ false }
    {
        if self.recorder.is_some() {
            return Ok(());
        }
        self.open_recorder()
    }

    // A function of its own, since its locals are large and `start` runs at each event line.
    #[inline(never)]
    fn open_recorder(&mut self) -> Result<(), ScriptFault>
        requires { self.old.recorded ≡ None }
        ensures started { Started self.old self.new result }
        ensures open { OnOk result (self.new.recorded ≢ None) }
        ensures same { self.new.lines ≡ self.old.lines }
        ensures unread { result_kind result ≢ Some FaultKind.Read }
        ensures written { is_write result ≡ false }
    {
        let opening = self.header.opening()?;
        let limit = self.header.limit();
        let header = mem::replace(&mut self.header, Header::new(self.alloc));
        let chooser = header.into_chooser();
        self.recorder = Some(Recorder::open(self.alloc, opening, chooser, limit));
        Ok(())
    }

    /// A message, or bytes that are none, came.
    pub(crate) fn hear<W: Sink, T: Teller<W>>(
        &mut self,
        source: Peer,
        read: Result<Message, WireFault>,
        writer: &mut W,
        teller: &mut T,
    ) -> Result<(), ScriptFault>
        requires { self.old.lines < u32.MAX }
        ensures done { HearsLine self.old self.new source read (W.written writer.old) (W.written writer.new) result }
        ensures unread { result_kind result ≢ Some FaultKind.Read }
        ensures failures { W.failures writer.new ≡ failures_if (W.failures writer.old) (not (is_write result)) }
    {
        match read {
            Ok(message) => self.call(Call::Hear(source, message), writer, teller),
            Err(fault) => self.show(LineOutcome::Unread(fault), writer, teller),
        }
    }

    /// A call of the detector.
    #[tactic(auto, using(crate::proofs::Outcoming::played_by))]
    #[inline(always)]
    pub(crate) fn call<W: Sink, T: Teller<W>>(
        &mut self,
        call: Call,
        writer: &mut W,
        teller: &mut T,
    ) -> Result<(), ScriptFault>
        requires { self.old.lines < u32.MAX }
        ensures done { PlaysLine self.old self.new call (W.written writer.old) (W.written writer.new) result }
        ensures unread { result_kind result ≢ Some FaultKind.Read }
        ensures failures { W.failures writer.new ≡ failures_if (W.failures writer.old) (not (is_write result)) }
    {
        self.start()?;
        let outcome = self.apply(call);
        let done = teller.put(self, &outcome, writer);
        self.written(done)
    }

    #[inline(always)]
    fn apply(&mut self, call: Call) -> LineOutcome
        requires lines { self.old.lines < u32.MAX }
        requires open { self.old.recorded ≢ None }
        ensures called { (before after : Option (List ℕ)) (done : Bool) →
            Puts before after (outcome_text self.new.recorded result) done →
            Called self.old.recorded self.new.recorded call before after done }
        ensures asked { asked_of result ≡ Calls call }
        ensures count { self.new.lines ≡ self.old.lines + 1 }
    {
        self.lines += 1;
        match &mut self.recorder {
            Some(recorder) => make_call(recorder, &call),
            None => unreachable!(),
        }
    }

    /// A line that makes no call, and is answered by what was recorded so far.
    #[tactic(auto, using(crate::proofs::Outcoming::shown_by))]
    pub(crate) fn show<W: Sink, T: Teller<W>>(
        &mut self,
        outcome: LineOutcome,
        writer: &mut W,
        teller: &mut T,
    ) -> Result<(), ScriptFault>
        requires { self.old.lines < u32.MAX }
        ensures done { ShowsLine self.old self.new (λ a. text_with a outcome) (W.written writer.old)
            (W.written writer.new) result }
        ensures unread { result_kind result ≢ Some FaultKind.Read }
        ensures failures { W.failures writer.new ≡ failures_if (W.failures writer.old) (not (is_write result)) }
    {
        self.start()?;
        self.skip();
        let done = teller.put(self, &outcome, writer);
        self.written(done)
    }

    /// Writes what came of the newest line. It answers whether the sink took all of it.
    #[inline(always)]
    pub fn put<W: Sink>(&self, outcome: &LineOutcome, writer: &mut W) -> bool
        ensures bytes { Puts (W.written writer.old) (W.written writer.new)
            (outcome_text self.now.recorded outcome.now) result }
        ensures failures { W.failures writer.new ≡ failures_if (W.failures writer.old) result }
    {
        match &self.recorder {
            Some(recorder) => put_outcome(recorder, outcome, writer),
            None => true,
        }
    }

    /// The newest reply, and `Quiet` where no call was made. `None` before the first event line.
    pub fn reply(&self) -> Option<&Reply>
        ensures { MatchOption result (self.now.recorded ≡ None)
            (λ reply. IfSome self.now.recorded (λ a. IsLatest a.past reply.now)) }
    {
        match &self.recorder {
            Some(recorder) => Some(recorder.reply()),
            None => None,
        }
    }

    /// The opening, once an event line was met.
    pub fn opening(&self) -> Option<&Opening>
        ensures { MatchOption result (self.now.recorded ≡ None)
            (λ opening. IfSome self.now.recorded (λ a. opening.now ≡ a.opening)) }
    {
        match &self.recorder {
            Some(recorder) => Some(recorder.journal().opening()),
            None => None,
        }
    }

    /// A line that tells what the newest entry was answered.
    pub(crate) fn confirm(&mut self, answer: AnswerText<'_>) -> Result<(), ScriptFault>
        requires { self.old.lines < u32.MAX }
        ensures { MatchResult result
            (λ done. Tells self.old.recorded answer.entry × (self.new ≡ record self.old { lines = self.old.lines + 1 }))
            (λ fault. (fault ≡ record { line = self.old.lines + 1; kind = FaultKind.Memory })
            ⊎ ((fault ≡ record { line = self.old.lines + 1; kind = FaultKind.Differs })
            × TellsOther self.old.recorded answer.entry)) }
    {
        self.lines += 1;
        match self.tells(answer.text) {
            None => Err(self.stopped(FaultKind::Memory)),
            Some(true) => Ok(()),
            Some(false) => Err(self.stopped(FaultKind::Differs)),
        }
    }

    /// Whether this is told of the newest entry. `None` where memory to compare it was refused.
    fn tells(&self, text: &[u8]) -> Option<bool>
        ensures { IfSome result (λ same. MatchBool same
            (Tells self.now.recorded text.now) (TellsOther self.now.recorded text.now)) }
    {
        let Some(recorder) = &self.recorder else {
            return Some(false);
        };
        is_newest(self.alloc, recorder, text)
    }
}

/// Whether the newest entry stands at the place that the text tells, and was answered as it tells. `None` where memory
/// to compare it was refused.
fn is_newest(alloc: Global, recorder: &Recorder<Drawer>, text: &[u8]) -> Option<bool>
    ensures { IfSome result (λ same. MatchBool same
        (newest_text recorder.now.past ≡ Some text.now) (newest_text recorder.now.past ≢ Some text.now)) }
{
    let count = recorder.journal().len();
    if count == 0 {
        return Some(false);
    }
    let mut page = Page::new(alloc);
    if !put_placed(&mut page, count - 1, recorder.reply()) {
        return None;
    }
    Some(page.text() == text)
}
