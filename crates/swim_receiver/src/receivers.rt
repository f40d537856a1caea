//! The receiver: who hears the datagrams of a line for a node. It reads the shared flag once a turn, and then asks its
//! line once.

ghost use Rattle.std.specs.Prelude.{◌≡◌, ◌<◌, Some};
ghost use Rattle.swim_work.specs.Callers.{SendsOn};
ghost use Rattle.swim_work.specs.Posts.{at_sender};
ghost use Rattle.swim_receiver.specs.Receiving.{HasHeard, HasTurned, at_turn};
ghost use Rattle.swim_receiver.specs.Rejoining.{IsOfSame};
ghost use Rattle.swim_receiver.specs.Showing.{AreShown};

use crate::rejoining::Returning;
use std::sync::Wait;
use std::sync::atomic::{AtomicBool, Ordering};
use swim_node::{Naming, Node, Seat, Viewer};
use swim_targets::Seeded;
use swim_work::{Caller, Done, Faults, Got, Line, Meter, Post, TidingsBoard, Why, Worker};

/// As many bytes as are taken of a datagram: more than one of the protocol has, so that one that is too long is seen to
/// be.
const BUFFER_BYTES: usize = 64;

/// Who hears the datagrams of a line for a node, sends the datagrams of its replies by a post, joins members again that
/// come back, and shows the line the members. By the board the ticker tells it when to look, and of its knocks.
///
/// It is large: who makes one puts it into a box at once.
#[derive(Drop)]
pub struct Receiver<'b, L: Line + Drop, O: Post + Drop> {
    pub line: L,
    pub post: O,
    pub returning: Returning<'b>,
    pub board: &'b TidingsBoard,
}

impl<'b, L: Line + Drop, O: Post + Drop> Worker for Receiver<'b, L, O> {
    ghost use Rattle.swim_receiver.specs.Receiving.{HearsLife, owned};

    ghost works = { λ old o limit seat seen end new. HearsLife O.posted o limit
        (owned (L.received old.line) (L.listed old.line) old.post old.returning) seat seen end
        (owned (L.received new.line) (L.listed new.line) new.post new.returning) };

    fn work<N: Naming, H: Wait + Drop, R: Wait>(
        &mut self,
        rt: &R,
        node: &Node<N, Seeded, H>,
        over: &AtomicBool,
        seat: Seat<N>,
        viewer: Viewer<N>,
        meter: &Meter,
    ) -> Done<N> {
        // It looks before the first datagram of each life.
        self.board.make_due();
        let mut hearing = Hearing {
            caller: Caller::new(seat),
            faults: Faults::none(),
            viewer,
        };
        let why = self.hear_on(rt, node, over, &mut hearing, meter);
        hearing.caller.show(meter);
        let Hearing {
            caller,
            faults: _,
            viewer,
        } = hearing;
        caller.done(viewer, why)
    }
}

/// What the receiver is in a life: a caller of its node, how many faults its line gave in a row, and a viewer of the
/// member table.
#[derive(Drop)]
struct Hearing<N: Naming> {
    caller: Caller<N>,
    faults: Faults,
    viewer: Viewer<N>,
}

impl<'b, L: Line + Drop, O: Post + Drop> Receiver<'b, L, O> {
    /// Hears until the life is over (`None`), or until the receiver ends, and why.
    fn hear_on<N: Naming, H: Wait + Drop, R: Wait>(
        &mut self,
        rt: &R,
        node: &Node<N, Seeded, H>,
        over: &AtomicBool,
        hearing: &mut Hearing<N>,
        meter: &Meter,
    ) -> Option<Why>
        ensures heard { HasHeard N.opening N.limit
            (at_turn (at_sender hearing.old.caller.seat self.old.post hearing.old.caller.counts)
            hearing.old.faults.in_a_row (L.received self.old.line) self.old.returning hearing.old.viewer) result
            (at_turn (at_sender hearing.new.caller.seat self.new.post hearing.new.caller.counts)
            hearing.new.faults.in_a_row (L.received self.new.line) self.new.returning hearing.new.viewer) }
        ensures sent { SendsOn O.posted N.opening
            (at_sender hearing.old.caller.seat self.old.post hearing.old.caller.counts)
            (at_sender hearing.new.caller.seat self.new.post hearing.new.caller.counts) }
        ensures same { IsOfSame self.old.returning self.new.returning }
        ensures shown { AreShown N.opening hearing.old.viewer hearing.new.viewer (L.listed self.old.line)
            (L.listed self.new.line) }
        ensures number { hearing.new.caller.seat.number ≡ hearing.old.caller.seat.number }
        ensures full { result ≡ Some Why.JournalFull → 0 < hearing.new.caller.seat.full }
    {
        for _turn in rt.forever() {
            if over.load(Ordering::SeqCst) {
                return None;
            }
            hearing.caller.show(meter);
            self.show(rt, &mut hearing.viewer);
            if let Some(end) = self.hear_next(rt, node, hearing) {
                return Some(end);
            }
        }
        unreachable!()
    }

    /// A turn of the receiver; why it ends, if it does. What the ticker left meanwhile is known before a datagram is
    /// heard: it may be the ack of a knock.
    #[tactic(auto, using(crate::proofs::Showing::none_shown))]
    fn hear_next<N: Naming, H: Wait + Drop, R: Wait>(
        &mut self,
        rt: &R,
        node: &Node<N, Seeded, H>,
        hearing: &mut Hearing<N>,
    ) -> Option<Why>
        ensures turn { HasTurned N.opening N.limit
            (at_turn (at_sender hearing.old.caller.seat self.old.post hearing.old.caller.counts)
            hearing.old.faults.in_a_row (L.received self.old.line) self.old.returning hearing.old.viewer) result
            (at_turn (at_sender hearing.new.caller.seat self.new.post hearing.new.caller.counts)
            hearing.new.faults.in_a_row (L.received self.new.line) self.new.returning hearing.new.viewer) }
        ensures sent { SendsOn O.posted N.opening
            (at_sender hearing.old.caller.seat self.old.post hearing.old.caller.counts)
            (at_sender hearing.new.caller.seat self.new.post hearing.new.caller.counts) }
        ensures same { IsOfSame self.old.returning self.new.returning }
        ensures shown { AreShown N.opening hearing.old.viewer hearing.new.viewer (L.listed self.old.line)
            (L.listed self.new.line) }
        ensures number { hearing.new.caller.seat.number ≡ hearing.old.caller.seat.number }
        ensures full { result ≡ Some Why.JournalFull → 0 < hearing.new.caller.seat.full }
    {
        let mut bytes = [0u8; BUFFER_BYTES];
        match self.line.receive(rt, &mut bytes) {
            Got::Datagram(count, source) => {
                hearing.faults.clear();
                self.show(rt, &mut hearing.viewer);
                self.hear_and_join(rt, node, &mut hearing.caller, &bytes[..count], source)
            }
            Got::Idle => {
                hearing.faults.clear();
                None
            }
            Got::Fault => hearing.faults.more(),
        }
    }
}
