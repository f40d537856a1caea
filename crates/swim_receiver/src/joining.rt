//! What the receiver does about a datagram: it gives it to the node, and joins the member that it shows to be there again.

ghost use Rattle.std.specs.Prelude.{◌≡◌, ◌<◌, List, Some};
ghost use Rattle.swim_work.specs.Callers.{SendsOn};
ghost use Rattle.swim_work.specs.Posts.{at_sender};
ghost use Rattle.swim_receiver.specs.Happenings.{Happening};
ghost use Rattle.swim_receiver.specs.Rejoining.{HearsAndJoins, IsOfSame, IsReturning, JoinsAgain};

use crate::receivers::Receiver;
use std::sync::Wait;
use swim_history::Row;
use swim_node::{Naming, Node};
use swim_targets::Chooser;
use swim_wire::Peer;
use swim_work::{Caller, Line, Post, Why};

impl<'b, L: Line + Drop, O: Post + Drop> Receiver<'b, L, O> {
    /// Hears a datagram, and then joins whoever it shows to be there again. Why the receiver ends, if it does.
    pub(crate) fn hear_and_join<N: Naming, C: Chooser, H: Wait + Drop, R: Wait>(
        &mut self,
        rt: &R,
        node: &Node<N, C, H>,
        caller: &mut Caller<N>,
        bytes: &[u8],
        source: Peer,
    ) -> Option<Why>
        ensures same { IsOfSame self.old.returning self.new.returning }
        ensures hears { (h : List Happening) → IsReturning self.old.returning h → (told : List Happening)
            × IsReturning self.new.returning told
            × HearsAndJoins N.opening N.limit self.old.returning.rejoiner.me h bytes.now source
            (at_sender caller.old.seat self.old.post caller.old.counts) result
            (at_sender caller.new.seat self.new.post caller.new.counts) told }
        ensures sent { SendsOn O.posted N.opening (at_sender caller.old.seat self.old.post caller.old.counts)
            (at_sender caller.new.seat self.new.post caller.new.counts) }
        ensures line { self.new.line ≡ self.old.line }
        ensures number { caller.new.seat.number ≡ caller.old.seat.number }
        ensures full { result ≡ Some Why.JournalFull → 0 < caller.new.seat.full }
    {
        let (end, message) = caller.hear(rt, node, &mut self.post, bytes, source);
        match self.returning.whom(&message, &source) {
            None => end,
            Some(row) => self.join_again(rt, node, caller, &row),
        }
    }

    /// Joins a member again. Where it was joined, it's time to look at the table: it shows it as up. Why the receiver
    /// ends, if it does.
    #[tactic(auto, using(crate::proofs::Rejoined::not_joined))]
    fn join_again<N: Naming, C: Chooser, H: Wait + Drop, R: Wait>(
        &mut self,
        rt: &R,
        node: &Node<N, C, H>,
        caller: &mut Caller<N>,
        row: &Row,
    ) -> Option<Why>
        ensures same { IsOfSame self.old.returning self.new.returning }
        ensures joins { JoinsAgain N.opening N.limit row.now self.old.returning
            (at_sender caller.old.seat self.old.post caller.old.counts) result
            (at_sender caller.new.seat self.new.post caller.new.counts) self.new.returning }
        ensures sent { SendsOn O.posted N.opening (at_sender caller.old.seat self.old.post caller.old.counts)
            (at_sender caller.new.seat self.new.post caller.new.counts) }
        ensures line { self.new.line ≡ self.old.line }
        ensures number { caller.new.seat.number ≡ caller.old.seat.number }
        ensures full { result ≡ Some Why.JournalFull → 0 < caller.new.seat.full }
    {
        let (end, is_joined) = caller.join(rt, node, &mut self.post, row);
        if !is_joined {
            return end;
        }
        self.returning.joined(row.id);
        self.board.make_due();
        end
    }
}
