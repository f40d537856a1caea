//! The journal of a life, as it is written down.

ghost use Rattle.std.specs.Prelude.{◌≡◌, ◌++◌, ◌∷◌, [], ℕ, Bool, List, Option, true};
ghost use Rattle.swim_text.specs.Streams.{Puts};
ghost use Rattle.swim_node.specs.Cells.{Filing};
ghost use Rattle.swim_journal.specs.Headings.{header_text, IsTellable};
ghost use Rattle.swim_recorder.specs.declared.transcripts.Transcript.{Transcript as Script};
ghost use Rattle.swim_recorder.specs.Transcripts.{AllSent, AreWritten, HasWritten};

use swim_history::{Kept, Opening};
use swim_journal::{put_header, put_kept};
use swim_text::Sink;

/// The journal of a life, as it is written into a sink. Once the sink has failed, at a text or where it was to hand on
/// what it held back, nothing more is written.
#[derive(Drop)]
pub struct Transcript<W: Sink + Drop> {
    pub sink: W,
    /// Whether the sink took all of the text, and handed on what it was asked to.
    pub is_whole: bool,
}

impl<W: Sink + Drop> Transcript<W> {
    /// The journal file of the life of this number, with the header that tells its opening, how many entries its journal
    /// may have, and the seed. Where the sink doesn't take all of that, nothing more is written.
    pub fn begin(
        sink: W,
        opening: &Opening,
        limit: u32,
        seed: &[u8; 32],
        number: u64,
    ) -> Transcript<W>
        ensures header { Puts (W.written sink) (W.written result.sink) (header_text opening.now limit seed.now number)
            result.is_whole }
        ensures tellable { IsTellable opening.now limit seed.now number }
    {
        let mut sink = sink;
        let is_whole = put_header(&mut sink, opening, limit, seed, number);
        Transcript { sink, is_whole }
    }

    /// Writes a call, as long as the sink took all.
    fn write(&mut self, kept: &Kept)
        ensures { (page : Option (List ℕ)) (was : Bool) (read : List Filing) (f : Filing) → f.kept ≡ kept.now
            → HasWritten page (W.written self.old.sink) was read self.old.is_whole
            → HasWritten page (W.written self.new.sink) was (read ++ f ∷ []) self.new.is_whole }
    {
        if !self.is_whole {
            return;
        }
        self.is_whole = put_kept(&mut self.sink, kept);
    }

    /// Has the sink hand on what it holds back, as long as it took all.
    fn hand_on(&mut self)
        ensures kept { (page : Option (List ℕ)) (was : Bool) (read : List Filing)
            → HasWritten page (W.written self.old.sink) was read self.old.is_whole
            → HasWritten page (W.written self.new.sink) was read self.new.is_whole }
        ensures sent { self.new.is_whole ≡ true → W.held self.new.sink ≡ 0 }
    {
        if !self.is_whole {
            return;
        }
        self.is_whole = self.sink.flush();
    }
}

/// Writes a call of a life, if its journal is written.
pub(crate) fn write_call<W: Sink + Drop>(transcript: &mut Option<Transcript<W>>, kept: &Kept)
    ensures { (start : Option (Script W)) (read : List Filing) (f : Filing) → f.kept ≡ kept.now
        → AreWritten W.written read start transcript.old
        → AreWritten W.written (read ++ f ∷ []) start transcript.new }
{
    if let Some(script) = transcript {
        script.write(kept);
    }
}

/// Hands on what was written of a life, if its journal is written.
pub(crate) fn hand_on<W: Sink + Drop>(transcript: &mut Option<Transcript<W>>)
    ensures kept { (start : Option (Script W)) (read : List Filing)
        → AreWritten W.written read start transcript.old
        → AreWritten W.written read start transcript.new }
    ensures sent { AllSent W.held transcript.new }
{
    if let Some(script) = transcript {
        script.hand_on();
    }
}
