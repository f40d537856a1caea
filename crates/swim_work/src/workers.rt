//! One who calls a node with a seat of its own until the life is over.

ghost use Rattle.std.specs.Prelude.{◌≡◌, ◌<◌, [], Some};
ghost use Rattle.swim_work.specs.declared.counts.Why.TheVariants.{JournalFull};

use crate::counts::{Counts, Why};
use crate::meters::Meter;
use std::sync::Wait;
use std::sync::atomic::AtomicBool;
use swim_node::{Naming, Node, Seat, Viewer};
use swim_targets::Seeded;

/// How a worker ended.
#[derive(Clone, Copy)]
pub struct End {
    /// Why; nothing where its life was over.
    pub why: Option<Why>,
    /// What happened to it beside its calls.
    pub counts: Counts,
}

/// What a worker hands back after a life.
#[derive(Drop)]
pub struct Done<N: Naming> {
    /// The seat that it was given, with the calls that it made.
    pub seat: Seat<N>,
    /// The viewer that it was given, with what it has seen.
    pub viewer: Viewer<N>,
    /// How it ended.
    pub end: End,
}

/// One who calls a node with a seat of its own until its life is over. It goes on from life to life, with the gates
/// that it owns.
pub trait Worker: Drop {
    ghost use Rattle.std.specs.Prelude.{ℕ, List};
    ghost use Rattle.swim_history.specs.declared.rows.Change.{Change};
    ghost use Rattle.swim_history.specs.Setting.{Setting};
    ghost use Rattle.swim_node.specs.Seats.{Seated};
    ghost use Rattle.swim_work.specs.declared.workers.End.{End};

    // what it did in a life: itself before; what the node began with, and how many entries its journal may have; its
    // seat in the end, the changes that its viewer had seen then, how it ended, and itself then
    ghost works: { Self → Setting → ℕ → Seated → List Change → End → Self → Type 0 };

    /// Works until the flag says that the life is over, or until it ends for a reason of its own. It may look at the
    /// member table, and shows others by the meter what it counted.
    fn work<N: Naming, H: Wait + Drop, R: Wait>(
        &mut self,
        rt: &R,
        node: &Node<N, Seeded, H>,
        over: &AtomicBool,
        seat: Seat<N>,
        viewer: Viewer<N>,
        meter: &Meter,
    ) -> Done<N>
        requires { (seat.calls ≡ []) × (seat.full ≡ 0) × (viewer ≡ []) }
        ensures works { works self.old N.opening N.limit result.seat result.viewer result.end self.new }
        ensures number { result.seat.number ≡ seat.number }
        ensures full { result.end.why ≡ Some JournalFull → 0 < result.seat.full };
}
