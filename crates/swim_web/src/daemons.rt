//! Daemons that are asked questions.

ghost use Rattle.std.specs.Prelude.{◌≡◌, ◌∷◌, [], List, Option};
ghost use Rattle.swim_web.specs.Asked.{Sent};
ghost use Rattle.swim_trail.specs.Growing.{Grows};
ghost use Rattle.swim_web.specs.Asking.{AsksTold};

use crate::questions::Question;
use arrayvec::ArrayVec;

/// Room for an answer. The longest, counts of 128 members, has at most 73,728.
const ANSWER_BYTES: usize = 73_728;

/// An answer.
pub type Answer = ArrayVec<u8, ANSWER_BYTES>;

/// A daemon that answers questions.
pub trait Daemon {
    // The questions that were asked so far, oldest first, each with what came of it; `None` where that is not known, as
    // of a socket.
    ghost asked: { Self → Option (List Sent) };

    /// Asks a question once, and takes the answer in. Returns whether a whole answer came in time.
    fn ask(&mut self, question: Question, answer: &mut Answer) -> bool
        ensures { Grows (asked self.old) (asked self.new)
            (record { question = question; is_answered = result; answer = answer.new.items } ∷ []) };
}

/// Asks a daemon once, unless it owed an answer just now, and notes whether it owes one. Returns whether it answered.
#[tactic(auto, using(crate::proofs::Looking::asks_late, crate::proofs::Looking::asks_sent))]
pub(crate) fn ask_once<D: Daemon>(
    daemon: &mut D,
    is_late: &mut bool,
    question: Question,
    answer: &mut Answer,
) -> bool
    ensures { AsksTold is_late.old question
        (record { asked = D.asked daemon.old; is_late = is_late.old })
        (record { asked = D.asked daemon.new; is_late = is_late.new }) result answer.new.items }
{
    if *is_late {
        return false;
    }
    let is_answered = daemon.ask(question, answer);
    *is_late = !is_answered;
    is_answered
}
