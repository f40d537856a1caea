//! The ticker: who gives a node its ticks. It reads the shared flag once a turn, and then asks its pace once.

ghost use Rattle.std.specs.Prelude.{◌≡◌};
ghost use Rattle.swim_work.specs.Posts.{at_sender};
ghost use Rattle.swim_work.specs.Turns.{HasTicked, IsTurn, TicksNext};
ghost use Rattle.swim_ticker.specs.Knocking.{at_knocking};
ghost use Rattle.swim_ticker.specs.Ticking.{GoesOn, at_ticker};

use crate::knocking::Knocking;
use std::sync::Wait;
use std::sync::atomic::{AtomicBool, Ordering};
use swim_node::{Naming, Node, Seat, Viewer};
use swim_targets::Seeded;
use swim_work::{Beat, Caller, Done, Meter, Pace, Post, RejoinLookup, TidingsBoard, Why, Worker};

/// Gives a node the ticks of a pace, and sends the datagrams of the replies by a post. At each N-th start of a period
/// it knocks at a member that was judged failed, by a second post; at each start it asks which N is in force. On the
/// board it leaves word for the receiver: when to look at the members, which period runs, and each knock.
#[derive(Drop)]
pub struct Ticker<'b, P: Pace + Drop, O: Post + Drop> {
    /// Gives the ticks.
    pub pace: P,
    /// Takes the datagrams of the replies.
    pub post: O,
    /// Takes the knocks.
    pub knock_post: O,
    /// Answers which N is in force: there is a knock at each N-th start of a period. With 0 nobody is knocked at.
    pub lookup: RejoinLookup<'b>,
    /// Knocks so far, over all lives. The count stops at 2^64-1.
    pub knocks: u64,
    /// Where word is left for the receiver.
    pub board: &'b TidingsBoard,
}

impl<'b, P: Pace + Drop, O: Post + Drop> Worker for Ticker<'b, P, O> {
    ghost use Rattle.swim_ticker.specs.Ticking.{TicksLife, owned};

    ghost works = { λ old o limit seat seen end new. TicksLife O.posted o limit
        (owned (P.beats old.pace) old.post (O.posted old.knock_post) old.lookup old.knocks) seat seen end
        (owned (P.beats new.pace) new.post (O.posted new.knock_post) new.lookup new.knocks) };

    fn work<N: Naming, H: Wait + Drop, R: Wait>(
        &mut self,
        rt: &R,
        node: &Node<N, Seeded, H>,
        over: &AtomicBool,
        seat: Seat<N>,
        viewer: Viewer<N>,
        meter: &Meter,
    ) -> Done<N> {
        let mut ticking = Ticking {
            caller: Caller::new(seat),
            knocking: Knocking::new(node.opening(), viewer),
        };
        let why = self.tick_on(rt, node, over, &mut ticking, meter);
        ticking.show(meter);
        self.knocks = self.knocks.saturating_add(ticking.knocking.knocks);
        let Ticking { caller, knocking } = ticking;
        caller.done(knocking.viewer, why)
    }
}

/// What the ticker is in a life: a caller of its node, and who knocks.
#[derive(Drop)]
struct Ticking<N: Naming> {
    caller: Caller<N>,
    knocking: Knocking<N>,
}

impl<N: Naming> Ticking<N> {
    /// Shows what it counted.
    fn show(&self, meter: &Meter) {
        self.caller.show(meter);
        meter.show_knocks(self.knocking.knocks);
    }
}

impl<'b, P: Pace + Drop, O: Post + Drop> Ticker<'b, P, O> {
    /// Ticks until the life is over (`None`), or until the ticker ends, and why.
    fn tick_on<N: Naming, H: Wait + Drop, R: Wait>(
        &mut self,
        rt: &R,
        node: &Node<N, Seeded, H>,
        over: &AtomicBool,
        ticking: &mut Ticking<N>,
        meter: &Meter,
    ) -> Option<Why>
        ensures ticked { HasTicked N.opening N.limit (P.beats self.old.pace) (P.beats self.new.pace)
            (at_sender ticking.old.caller.seat self.old.post ticking.old.caller.counts) result
            (at_sender ticking.new.caller.seat self.new.post ticking.new.caller.counts) }
        ensures goes_on { GoesOn O.posted N.opening
            (at_ticker (at_sender ticking.old.caller.seat self.old.post ticking.old.caller.counts)
            (at_knocking ticking.old.knocking.knocker ticking.old.knocking.viewer ticking.old.knocking.table.items
            ticking.old.knocking.number self.old.lookup (O.posted self.old.knock_post) ticking.old.knocking.knocks)
            self.old.knocks) result
            (at_ticker (at_sender ticking.new.caller.seat self.new.post ticking.new.caller.counts)
            (at_knocking ticking.new.knocking.knocker ticking.new.knocking.viewer ticking.new.knocking.table.items
            ticking.new.knocking.number self.new.lookup (O.posted self.new.knock_post) ticking.new.knocking.knocks)
            self.new.knocks) }
    {
        for _turn in rt.forever() {
            if over.load(Ordering::SeqCst) {
                return None;
            }
            ticking.show(meter);
            if let Some(end) = self.tick_next(rt, node, ticking) {
                return Some(end);
            }
        }
        unreachable!()
    }

    /// A turn of the ticker; why it ends, if it does. After a tick the receiver is told that it's time to look.
    fn tick_next<N: Naming, H: Wait + Drop, R: Wait>(
        &mut self,
        rt: &R,
        node: &Node<N, Seeded, H>,
        ticking: &mut Ticking<N>,
    ) -> Option<Why>
        ensures turn { IsTurn (TicksNext N.opening N.limit) (P.beats self.old.pace) (P.beats self.new.pace)
            (at_sender ticking.old.caller.seat self.old.post ticking.old.caller.counts) result
            (at_sender ticking.new.caller.seat self.new.post ticking.new.caller.counts) }
        ensures goes_on { GoesOn O.posted N.opening
            (at_ticker (at_sender ticking.old.caller.seat self.old.post ticking.old.caller.counts)
            (at_knocking ticking.old.knocking.knocker ticking.old.knocking.viewer ticking.old.knocking.table.items
            ticking.old.knocking.number self.old.lookup (O.posted self.old.knock_post) ticking.old.knocking.knocks)
            self.old.knocks) result
            (at_ticker (at_sender ticking.new.caller.seat self.new.post ticking.new.caller.counts)
            (at_knocking ticking.new.knocking.knocker ticking.new.knocking.viewer ticking.new.knocking.table.items
            ticking.new.knocking.number self.new.lookup (O.posted self.new.knock_post) ticking.new.knocking.knocks)
            self.new.knocks) }
    {
        match self.pace.next(rt) {
            Beat::Tick => {
                let (end, is_started) = ticking.caller.tick(rt, node, &mut self.post);
                let board = self.board;
                ticking.knocking.pass(
                    rt,
                    board,
                    &mut self.lookup,
                    &mut self.knock_post,
                    is_started,
                );
                end
            }
            Beat::Idle => None,
            Beat::Stop => Some(Why::Stopped),
        }
    }
}
