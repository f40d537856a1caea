//! What is done between lives.

use crate::pasts::Past;
use std::sync::Wait;
use swim_history::Opening;
use swim_work::Recorder;

/// What is done before and after each life, in the thread that runs them: files are opened and kept, and lines are
/// written that tell how lives ended. It reaches the recorder, and nothing else of the crew.
pub trait Keeper<D: Recorder> {
    ghost use Rattle.std.specs.Prelude.{ℕ};
    ghost use Rattle.swim_history.specs.Setting.{Setting};
    ghost use Rattle.swim_crew.specs.declared.pasts.Past.{Past};

    // what it does before a life: itself and the recorder before; the number of the life, and what it begins with;
    // itself and the recorder then
    ghost opens: { Self → D → ℕ → Setting → Self → D → Type 0 };

    // what it does after a life: itself and the recorder before; the number of the life, and what is left of it; itself
    // and the recorder then
    ghost closes: { Self → D → ℕ → Past → Self → D → Type 0 };

    /// The life of this number is about to begin. If its node can't be opened, there is no life, and no other one
    /// follows: then `close` isn't called.
    fn open<R: Wait>(&mut self, rt: &R, number: u64, opening: &Opening, recorder: &mut D)
        ensures { opens self.old recorder.old number opening.now self.new recorder.new };

    /// The life of this number is over.
    fn close<R: Wait>(&mut self, rt: &R, number: u64, past: &Past, recorder: &mut D)
        ensures { closes self.old recorder.old number past.now self.new recorder.new };
}
