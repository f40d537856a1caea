//! The desk of a node: what operators ask is asked of the node.

ghost use Rattle.std.specs.Prelude.{◌≡◌};
ghost use Rattle.swim_history.specs.declared.calls.Call.TheVariants as calls;
ghost use Rattle.swim_control.specs.declared.desks.DeskCommand.{DeskCommand as Asked};
ghost use Rattle.swim_control.specs.Desks.{Shows, Measures, Answers, Counts as Counted, Reloads};
ghost use Rattle.swim_node.specs.Answered.{MayRefuse};
ghost use Rattle.swim_node.specs.News.{IsLongerOf};
ghost use Rattle.swim_node.specs.Seats.{Seated};
ghost use Rattle.swim_desk.specs.Desk.{Asks, Calls, IsTold, Tells, TellsRefusal};

use crate::speakers::Speaker;
use std::alloc::Global;
use std::marker::Model;
use std::sync::Wait;
use swim_control::{Answer, Desk, ReloadText, StatsText};
use swim_history::{Gap, Reply, Table};
use swim_node::{CallFault, Naming, Node, Receipt, Seat, Viewer};
use swim_targets::{Chooser, Seeded};
use swim_wire::{Id, Peer};
use swim_work::{Counts, Meter};

/// What a desk calls a node with: a seat, a viewer, which learns of each call of the seat, and how many of them were
/// refused for want of memory. A contract sees the seat, the changes that the viewer has seen, and the count.
#[derive(Drop)]
struct Asker<N: Naming> {
    seat: Seat<N>,
    viewer: Viewer<N>,
    refused: u64,
}

impl<N: Naming> Model for Asker<N> {
    ghost use Rattle.swim_desk.specs.Desk.{AtDesk};

    ghost Value = { AtDesk };

    ghost view = { λ d. record { seat = d.seat; seen = d.viewer; refused = d.refused } };
}

impl<N: Naming> Asker<N> {
    /// Lets a member join.
    #[tactic(auto, using(crate::proofs::Told::join_is_told))]
    fn join<C: Chooser, H: Wait + Drop, R: Wait>(
        &mut self,
        rt: &R,
        node: &Node<N, C, H>,
        id: Id,
        peer: Peer,
    ) -> Answer
        ensures { Calls N.opening N.limit self.old (calls.Join id peer) result self.new }
    {
        match node.join(rt, &mut self.seat, id, peer) {
            Ok(receipt) => self.done(&receipt),
            Err(fault) => self.refused(fault),
        }
    }

    /// Removes a member.
    #[tactic(auto, using(crate::proofs::Told::removal_is_told))]
    fn remove<C: Chooser, H: Wait + Drop, R: Wait>(
        &mut self,
        rt: &R,
        node: &Node<N, C, H>,
        id: Id,
    ) -> Answer
        ensures { Calls N.opening N.limit self.old (calls.Remove id) result self.new }
    {
        match node.remove(rt, &mut self.seat, id) {
            Ok(receipt) => self.done(&receipt),
            Err(fault) => self.refused(fault),
        }
    }

    /// Measures the widest gap of a member.
    fn gap<C: Chooser, H: Wait + Drop, R: Wait>(
        &mut self,
        rt: &R,
        node: &Node<N, C, H>,
        id: Id,
    ) -> Option<Gap>
        ensures { Asks N.opening N.limit self.old (Asked.Gap id) (Measures result) self.new }
    {
        node.gap(rt, &mut self.seat, id)
    }

    /// Learns of a call that was answered, and returns what an operator is told of its reply.
    fn done(&mut self, receipt: &Receipt<N>) -> Answer
        requires { IsTold receipt.now.reply }
        ensures same { self.new ≡ record self.old { seen = self.new.seen } }
        ensures told { Tells receipt.now.reply result }
        ensures learnt { IsLongerOf self.old.seen receipt.now.news self.new.seen }
    {
        self.viewer.learn(&receipt.news);
        match &receipt.reply {
            Reply::Joined { place } => Answer::Joined(*place),
            Reply::Removed => Answer::Removed,
            Reply::Refused(why) => Answer::Refused(why.number()),
            _ => unreachable!(),
        }
    }

    /// Returns what an operator is told of a call that got no reply, and counts it where memory was refused.
    fn refused(&mut self, fault: CallFault) -> Answer
        requires { (seat : Seated) × MayRefuse N.opening N.limit seat fault }
        ensures same { self.new ≡ record self.old { refused = self.new.refused } }
        ensures tells { TellsRefusal fault result self.old.refused self.new.refused }
    {
        match fault {
            CallFault::JournalFull => Answer::JournalFull,
            CallFault::NoMemory => {
                self.refused = self.refused.saturating_add(1);
                Answer::NoMemory
            }
            CallFault::Wire(_) => unreachable!(),
        }
    }
}

/// A desk over a node, with a seat and a viewer for itself: what is joined or removed is a call of the seat, and the
/// viewer learns of it, so that a list that follows shows it. Its speaker tells what was counted. A contract sees the
/// `Asker` alone.
#[derive(Drop)]
pub(crate) struct NodeDesk<'n, 'k, N: Naming, H: Wait + Drop, K> {
    node: &'n Node<N, Seeded, H>,
    asker: Asker<N>,
    speaker: &'k mut K,
}

impl<'n, 'k, N: Naming, H: Wait + Drop, K> Model for NodeDesk<'n, 'k, N, H, K> {
    ghost use Rattle.swim_desk.specs.Desk.{AtDesk};

    ghost Value = { AtDesk };

    ghost view = { λ d. d.asker };
}

impl<'n, 'k, N: Naming, H: Wait + Drop, K> NodeDesk<'n, 'k, N, H, K> {
    /// A desk whose seat made no call yet that was refused.
    pub(crate) fn new(
        node: &'n Node<N, Seeded, H>,
        seat: Seat<N>,
        viewer: Viewer<N>,
        speaker: &'k mut K,
    ) -> NodeDesk<'n, 'k, N, H, K>
        ensures { result ≡ record { seat = seat; seen = viewer; refused = 0 } }
    {
        let asker = Asker {
            seat,
            viewer,
            refused: 0,
        };
        NodeDesk {
            node,
            asker,
            speaker,
        }
    }

    /// Shows by a meter how many calls its seat made, and what it counted.
    pub(crate) fn show(&self, meter: &Meter) {
        let counts = Counts {
            refused: self.asker.refused,
            ..Counts::none()
        };
        meter.show(self.asker.seat.calls().len(), counts);
    }

    /// Hands back the seat and the viewer, and how many calls were refused for want of memory.
    pub(crate) fn leave(self) -> (Seat<N>, Viewer<N>, u64)
        ensures seat { result.0 ≡ self.entry.seat }
        ensures seen { result.1 ≡ self.entry.seen }
        ensures refused { result.2 ≡ self.entry.refused }
    {
        (self.asker.seat, self.asker.viewer, self.asker.refused)
    }
}

impl<'n, 'k, N: Naming, H: Wait + Drop, K: Speaker> NodeDesk<'n, 'k, N, H, K> {
    /// Has the speaker tell what is due; so many who came were turned away so far.
    pub(crate) fn tell<R: Wait>(&mut self, rt: &R, turned_away: u64)
        ensures { self.new ≡ self.old }
    {
        self.speaker.tell(rt, turned_away);
    }
}

impl<'n, 'k, N: Naming, H: Wait + Drop, K: Speaker> Desk for NodeDesk<'n, 'k, N, H, K> {
    ghost asks = { λ old command told new. Asks N.opening N.limit old command told new };

    fn list<R: Wait>(&mut self, _rt: &R) -> Option<Table>
        ensures { Asks N.opening N.limit self.old Asked.List (Shows result) self.new }
    {
        self.asker.viewer.list()
    }

    fn join<R: Wait>(&mut self, rt: &R, _alloc: Global, id: Id, peer: Peer) -> Answer
        ensures { Asks N.opening N.limit self.old (Asked.Join id peer) (Answers result) self.new }
    {
        let node = self.node;
        self.asker.join(rt, node, id, peer)
    }

    fn remove<R: Wait>(&mut self, rt: &R, _alloc: Global, id: Id) -> Answer
        ensures { Asks N.opening N.limit self.old (Asked.Remove id) (Answers result) self.new }
    {
        let node = self.node;
        self.asker.remove(rt, node, id)
    }

    fn gap<R: Wait>(&mut self, rt: &R, id: Id) -> Option<Gap>
        ensures { Asks N.opening N.limit self.old (Asked.Gap id) (Measures result) self.new }
    {
        let node = self.node;
        self.asker.gap(rt, node, id)
    }

    fn stats<R: Wait>(&mut self, rt: &R) -> StatsText
        ensures { Asks N.opening N.limit self.old Asked.Stats (Counted result) self.new }
    {
        self.speaker.stats(rt)
    }

    fn reload<R: Wait>(&mut self, rt: &R) -> ReloadText
        ensures { Asks N.opening N.limit self.old Asked.Reload (Reloads result) self.new }
    {
        self.speaker.reload(rt)
    }
}
