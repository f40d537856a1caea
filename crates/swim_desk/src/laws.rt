//! Laws of what the controller does. Each is the contract of a function that does nothing, so that it stays proved.

ghost use Rattle.std.specs.Prelude.{◌≡◌, ◌≢◌, ℕ, Bool, List, [], Option, Some};
ghost use Rattle.swim_history.specs.declared.rows.Change.{Change};
ghost use Rattle.swim_history.specs.Setting.{Setting};
ghost use Rattle.swim_node.specs.Seats.{Seated};
ghost use Rattle.swim_control.specs.SideBySide.{Brought, Called};
ghost use Rattle.swim_control.specs.Talks.{Talks};
ghost use Rattle.swim_work.specs.declared.counts.Why.{Why as Reason};
ghost use Rattle.swim_work.specs.declared.counts.Why.TheVariants.{Socket};
ghost use Rattle.swim_work.specs.declared.workers.End.{End};
ghost use Rattle.swim_desk.specs.Connected.{AnswersLines, AreAnswered, BringsSo};
ghost use Rattle.swim_desk.specs.Controlling.{ControlsLife, Step};
ghost use Rattle.swim_desk.specs.Ending.{EndsByTurn};
ghost use Rattle.swim_desk.specs.Given.{AnswersGiven, AreAnsweredSoFar};

/// Each whole line that a connection brought, in order, became exactly its calls of the controller's seat, with the reply
/// that it was answered: a join and a removal one call, unless the node refused it, and every other line none. The seat
/// made no other call. A connection may come in one life and bring lines in the next ones, too. Clause `life` says that
/// of connections whose bytes are known when they come, and of the bytes that connections gave so far, which are known of
/// each.
pub fn each_line_is_called()
    ensures none { (b : Brought) → AreAnswered b [] (record { talks = []; count = 0; closed = [] }) }
    ensures none_given { AreAnsweredSoFar [] (record { talks = []; count = 0; closed = [] }) }
    ensures life { (o : Setting) (limit : ℕ) (before after : Option (List Bool)) (old new : Talks) (seat : Seated)
        (seen : List Change) (end : End) → ControlsLife o limit before after old seat seen end new
        → (steps : List Step) × ((b : Brought) (log : List Called) → BringsSo b old.count steps
        → AreAnswered b log old → AnswersLines o limit b log seen seat end.counts.refused new)
        × ((log : List Called) → AreAnsweredSoFar log old
        → AnswersGiven o limit log seen seat end.counts.refused new) }
{}

/// The controller ends a life for its door, or with the newest turn of a connection, in which that one was answered that
/// it is to stop, or met the full journal; and for no other reason.
pub fn a_connection_ends_a_life()
    ensures { (o : Setting) (limit : ℕ) (before after : Option (List Bool)) (old new : Talks) (seat : Seated)
        (seen : List Change) (end : End) (why : Reason) → ControlsLife o limit before after old seat seen end new
        → end.why ≡ Some why → why ≢ Socket → EndsByTurn o limit why new }
{}
