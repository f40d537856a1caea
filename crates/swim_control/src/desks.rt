//! Who is asked what control lines ask.

ghost use Rattle.swim_control.specs.declared.desks.DeskCommand.{DeskCommand};
ghost use Rattle.swim_control.specs.Desks.{Told, Shows, Measures, Answers, Counts, Reloads};

use arrayvec::ArrayVec;
use std::alloc::Global;
use std::sync::Wait;
use swim_history::{Gap, Table};
use swim_wire::{Id, Peer};

/// What a control line asks of a desk.
#[derive(Clone, Copy, Debug, PartialEq, Eq)]
pub enum DeskCommand {
    /// Which members are known?
    List,
    /// The member joins, at this address.
    Join(Id, Peer),
    /// The member is removed.
    Remove(Id),
    /// How far apart were the probes of the member?
    Gap(Id),
    /// What was counted?
    Stats,
    /// Is the configuration read again?
    Reload,
}

/// How many bytes a text of counts has at most: some 80 lines of the node, and at most 499 bytes of each of 128 members.
pub const STATS_BYTES: usize = 73_728;

/// A text of counts: lines, and a dot in the last one.
pub type StatsText = ArrayVec<u8, STATS_BYTES>;

/// How many bytes the line that tells what came of a reload has at most, with its line feed.
pub const RELOAD_BYTES: usize = 1_024;

/// The line that tells what came of a reload, with its line feed.
pub type ReloadText = ArrayVec<u8, RELOAD_BYTES>;

/// What a desk answers to a join or a removal.
#[derive(Clone, Copy, Debug, PartialEq, Eq)]
pub enum Answer {
    /// The member joined, at this place of those that are probed in turn.
    Joined(u32),
    /// The member is unknown from now on.
    Removed,
    /// The detector refused, for the reason of this number.
    Refused(u8),
    /// The journal has as many entries as it may have; nothing changed.
    JournalFull,
    /// Memory was refused; nothing changed.
    NoMemory,
}

/// Somebody who is asked what control lines ask. What a desk tells is a matter of each desk: its member says it. Each
/// call may wait.
pub trait Desk {
    /// The desk before, a command, what it tells, and the desk after.
    ghost asks: { Self → DeskCommand → Told → Self → Type 0 };

    /// The members that are known, ascending by id; `None` where there is no table any more.
    fn list<R: Wait>(&mut self, rt: &R) -> Option<Table>
        ensures { asks self.old DeskCommand.List (Shows result) self.new };

    /// Lets a member join.
    fn join<R: Wait>(&mut self, rt: &R, alloc: Global, id: Id, peer: Peer) -> Answer
        ensures { asks self.old (DeskCommand.Join id peer) (Answers result) self.new };

    /// Removes a member.
    fn remove<R: Wait>(&mut self, rt: &R, alloc: Global, id: Id) -> Answer
        ensures { asks self.old (DeskCommand.Remove id) (Answers result) self.new };

    /// The widest gap between successive probes of a member, if there is one.
    fn gap<R: Wait>(&mut self, rt: &R, id: Id) -> Option<Gap>
        ensures { asks self.old (DeskCommand.Gap id) (Measures result) self.new };

    /// What was counted.
    fn stats<R: Wait>(&mut self, rt: &R) -> StatsText
        ensures { asks self.old DeskCommand.Stats (Counts result) self.new };

    /// Reads the configuration again, and returns the line that tells what came of it.
    fn reload<R: Wait>(&mut self, rt: &R) -> ReloadText
        ensures { asks self.old DeskCommand.Reload (Reloads result) self.new };
}
