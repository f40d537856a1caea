//! Laws of what the receiver does. Each is the contract of a function that does nothing, so that it stays proved.

ghost use Rattle.std.specs.Prelude.{ℕ, List};
ghost use Rattle.swim_history.specs.declared.rows.Change.{Change};
ghost use Rattle.swim_history.specs.Setting.{Setting};
ghost use Rattle.swim_node.specs.Seats.{Seated};
ghost use Rattle.swim_work.specs.declared.workers.End.{End};
ghost use Rattle.swim_work.specs.Gates.{Received};
ghost use Rattle.swim_trail.specs.Growing.{Grows};
ghost use Rattle.swim_receiver.specs.Datagrams.{AreHeard, datagrams_in};
ghost use Rattle.swim_receiver.specs.Receiving.{HearsLife, Owned};

use swim_work::Post;

/// Each datagram that the line gave in a life, in order, became one call of the receiver's seat, for its message and
/// from its address, behind which whoever it shows to be there again was joined, by all that happened to members until
/// then; the seat made no other call. Or it was refused, and counted. Of the tables in what happened, those of this
/// life are the ones after beginnings of what the viewer had seen in the end, one after the other.
pub fn each_datagram_is_heard<O: Post>()
    ensures { (o : Setting) (limit : ℕ) (old new : Owned O) (seat : Seated) (seen : List Change) (end : End)
        → HearsLife O.posted o limit old seat seen end new → (given : List Received)
        × Grows old.received new.received given
        × AreHeard o old.returning (datagrams_in given) seat end.counts seen new.returning }
{}
