//! A worker that does what a test tells it.

ghost use Rattle.std.specs.Prelude.{◌≡◌, ◌<◌, None, Some};

use super::*;

/// What a worker does after its ticks.
#[derive(Clone, Copy, PartialEq, Eq)]
pub enum Then {
    /// It waits until its life is over.
    Waits,
    /// It is told to stop.
    Stops,
    /// It waits until its life is over, and is told to stop as well.
    StopsLate,
    /// It gives up on its line.
    GivesUp,
    /// It has no memory.
    Starves,
}

impl Then {
    // Why the worker ends while its life goes on.
    fn early(self) -> Option<Why>
        ensures { result ≡ Some Why.JournalFull → ⊥ }
    {
        match self {
            Then::Stops => Some(Why::Stopped),
            Then::GivesUp => Some(Why::Socket),
            Then::Starves => Some(Why::NoMemory),
            Then::Waits | Then::StopsLate => None,
        }
    }

    // Why it ends once its life is over.
    fn late(self) -> Option<Why>
        ensures { result ≡ Some Why.JournalFull → ⊥ }
    {
        match self {
            Then::StopsLate => Some(Why::Stopped),
            Then::Waits | Then::Stops | Then::GivesUp | Then::Starves => None,
        }
    }
}

/// A post that takes everything.
#[derive(Drop)]
struct TakingPost {}

impl Post for TakingPost {
    ghost posted = { λ post. None };

    fn fresh(&self) -> TakingPost {
        TakingPost {}
    }

    fn send<R: Wait>(&mut self, _rt: &R, _bytes: &[u8], _to: Peer) -> bool {
        true
    }
}

/// A worker that gives a number of ticks over all its lives, and then does something else. In each life it has counted
/// the same besides.
#[derive(Drop)]
pub struct TickingWorker {
    pub left: u32,
    pub then: Then,
    pub counts: Counts,
    post: TakingPost,
}

impl TickingWorker {
    /// It counts nothing besides.
    pub fn new(ticks: u32, then: Then) -> TickingWorker {
        TickingWorker {
            left: ticks,
            then,
            counts: Counts::none(),
            post: TakingPost {},
        }
    }

    fn tick_on<N: Naming, H: Wait + Drop, R: Wait>(
        &mut self,
        rt: &R,
        node: &Node<N, Seeded, H>,
        over: &AtomicBool,
        caller: &mut Caller<N>,
    ) -> Option<Why>
        ensures number { caller.new.seat.number ≡ caller.old.seat.number }
        ensures full { result ≡ Some Why.JournalFull → 0 < caller.new.seat.full }
    {
        for _turn in rt.forever() {
            if over.load(Ordering::SeqCst) {
                return self.then.late();
            }
            let end = self.turn(rt, node, caller);
            if end.is_some() {
                return end;
            }
        }
        unreachable!()
    }

    fn turn<N: Naming, H: Wait + Drop, R: Wait>(
        &mut self,
        rt: &R,
        node: &Node<N, Seeded, H>,
        caller: &mut Caller<N>,
    ) -> Option<Why>
        ensures number { caller.new.seat.number ≡ caller.old.seat.number }
        ensures full { result ≡ Some Why.JournalFull → 0 < caller.new.seat.full }
    {
        if self.left == 0 {
            yield_now();
            return self.then.early();
        }
        self.left -= 1;
        let (end, _is_started) = caller.tick(rt, node, &mut self.post);
        end
    }
}

impl Worker for TickingWorker {
    ghost works = { λ old o limit seat seen end new. Unit {0} };

    fn work<N: Naming, H: Wait + Drop, R: Wait>(
        &mut self,
        rt: &R,
        node: &Node<N, Seeded, H>,
        over: &AtomicBool,
        seat: Seat<N>,
        viewer: Viewer<N>,
        _meter: &Meter,
    ) -> Done<N> {
        let mut caller = Caller::new(seat);
        let why = self.tick_on(rt, node, over, &mut caller);
        let counts = self.counts.and(caller.counts);
        Done {
            seat: caller.seat,
            viewer,
            end: End { why, counts },
        }
    }
}
