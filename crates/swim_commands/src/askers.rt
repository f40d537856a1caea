//! Who is asked control lines.

ghost use Rattle.std.specs.Prelude.{◌≡◌, ◌∷◌, [], true, List, Option};
ghost use Rattle.swim_commands.specs.Answers.{is_answer_to};
ghost use Rattle.swim_commands.specs.Asking.{Sent};
ghost use Rattle.swim_trail.specs.Growing.{Grows};

use crate::answers::ControlAnswer;

/// What came of a line that was sent.
#[derive(Clone, Copy)]
pub enum Came {
    /// A whole answer to that line.
    Answer,
    /// None, as long as was waited.
    Late,
    /// None, and none will come: nobody took the line, or the connection ended before the answer did.
    Nothing,
}

/// Somebody who is asked control lines: a daemon.
pub trait Asker {
    // The lines that were sent so far, oldest first, each with what came of it; `None` where that is not known, as of a
    // socket.
    ghost asked: { Self → Option (List Sent) };

    /// Sends a line once, and takes its answer in.
    fn ask(&mut self, line: &[u8], answer: &mut ControlAnswer) -> Came
        ensures asked { Grows (asked self.old) (asked self.new)
            (record { line = line.now; came = result; answer = answer.new.items } ∷ []) }
        ensures whole { result ≡ Came.Answer → is_answer_to line.now answer.new.items ≡ true };

    /// Waits until who was asked has closed the connection of the last line: `Answer` where it is closed.
    fn leave(&mut self) -> Came
        ensures { asked self.new ≡ asked self.old };
}
