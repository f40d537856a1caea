//! Who hears of each call of a life's journal, once it was read: for a log, and for what is counted.

ghost use Rattle.std.specs.Prelude.{◌≡◌, ◌∷◌, []};
ghost use Rattle.swim_trail.specs.Growing.{Grows};
ghost use Rattle.swim_recorder.specs.Reports.{Report};
ghost use Rattle.swim_recorder.specs.Reports.Report.{Began, Called};

use std::sync::Wait;
use swim_history::{Change, Opening};
use swim_node::Followed;
use swim_work::Metered;

/// What is told of a life beside its calls, as it stands after some of them were read.
#[derive(Clone, Copy, Debug, PartialEq, Eq)]
pub struct Standing {
    /// How many calls were read.
    pub read: u64,
    /// What the workers that call the node counted. Of the calls that were accepted some may be read already, and not
    /// be counted yet.
    pub metered: Metered,
    /// How many watch.
    pub watchers: u64,
    /// How many of those who watched in this life didn't keep up.
    pub lost: u64,
}

/// Who hears of the lives' calls, in the order of their journals. It waits for nobody.
pub trait Reporter {
    ghost use Rattle.std.specs.Prelude.{List, Option};
    ghost use Rattle.swim_recorder.specs.Reports.{Report};

    // what it heard so far, oldest first, where that is known
    ghost heard: { Self → Option (List Report) };

    /// Hears that a life begins.
    fn begins(&mut self, opening: &Opening)
        ensures { Grows (heard self.old) (heard self.new) (Began opening.now ∷ []) };

    /// Hears of a call: whose it is, its reply, and what it changed of the member table.
    fn hear<R: Wait>(&mut self, rt: &R, next: &Followed, change: &Option<Change>)
        ensures { Grows (heard self.old) (heard self.new) (Called next.now change.now ∷ []) };

    /// Hears how the life stands, after all that was read at a time.
    fn rest<R: Wait>(&mut self, rt: &R, standing: Standing)
        ensures { heard self.new ≡ heard self.old };
}
