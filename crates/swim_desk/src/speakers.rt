//! The speaker of a daemon: what was counted and what is due reaches people through it.

use std::sync::Wait;
use swim_control::{ReloadText, StatsText};

/// Tells operators what was counted, and people what is due. It knows nothing of a node, so whatever it does changes
/// none, and it waits for nobody: the controller calls it between two turns of its connections.
pub trait Speaker {
    /// Returns what was counted until now: lines, and a dot in the last one.
    fn stats<R: Wait>(&self, rt: &R) -> StatsText;

    /// Has the configuration read again, and returns the line that tells what came of it.
    fn reload<R: Wait>(&mut self, rt: &R) -> ReloadText;

    /// Tells what is due, such as changes of the member table in a log, or metrics in a file. The controller calls it
    /// once a turn, before it asks its door: at least as often as its door's `wait` returns. `turned_away` is how many
    /// who came by the door were turned away so far.
    fn tell<R: Wait>(&mut self, rt: &R, turned_away: u64);
}
