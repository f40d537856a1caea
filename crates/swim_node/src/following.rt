//! Reading a node's journal while the node runs.

ghost use Rattle.std.specs.Prelude.{◌≡◌, ◌<◌, [], length, List, map, slice_get, slice_index, Some, IsSome};
ghost use mathlib.Core.List.{IsPrefix};
ghost use Rattle.swim_node.specs.Cells.{Filing, Noted, ArePlaced};
ghost use Rattle.swim_node.specs.Following.{note_in, StandAmong};

use crate::cells::{CellNote, compare_at};
use crate::naming::Naming;
use crate::seats::wait_for_good;
use std::alloc::Global;
use std::marker::{Model, PhantomData};
use std::sync::Wait;
use swim_history::Kept;

/// A call that was read of a journal, and whose it is.
#[derive(Debug, Drop)]
pub struct Followed {
    /// The caller's seat, 0 to 3.
    pub seat: u8,
    /// The call, with its place and its reply.
    pub kept: Kept,
}

impl Model for Followed {
    ghost use Rattle.swim_node.specs.Cells.{Filing};

    ghost Value = { Filing };

    ghost view = { λ f. record { seat = f.seat; kept = f.kept } };
}

/// A call that was read, and that it stands in the cell of its place.
#[derive(Drop)]
pub(crate) struct ReadCall {
    pub(crate) followed: Followed,
    pub(crate) note: CellNote,
}

/// Who reads a node's journal while the node runs, call by call from the first one on. A contract sees the calls that
/// it has read, oldest first, each with its seat. It keeps a note of each of them, which has no bytes.
#[derive(Drop)]
pub struct Follower<N: Naming> {
    // One of each call: that it stands in the cell of its place.
    pub(crate) notes: Vec<CellNote>,
    of: PhantomData<N>,
}

impl<N: Naming> Model for Follower<N> {
    ghost use Rattle.std.specs.Prelude.{List};
    ghost use Rattle.swim_node.specs.Cells.{Filing, ArePlaced};
    ghost use Rattle.swim_node.specs.Following.{known_of};

    ghost Value = { List Filing };

    ghost view = { λ f. known_of f.notes.items };

    ghost invariant = { λ f. ArePlaced N.cells f.notes.items };
}

impl<N: Naming> Follower<N> {
    /// Nothing was read yet.
    pub(crate) fn new(alloc: Global) -> Follower<N>
        ensures { result ≡ [] }
    {
        Follower {
            notes: Vec::new(alloc),
            of: PhantomData,
        }
    }

    /// How many calls it has read.
    pub fn len(&self) -> usize
        ensures { result ≡ length self.now }
    {
        self.notes.len()
    }

    /// Compares what was read with the notes of a journal's entries: it is a beginning of them. It waits for good at a
    /// call of which there is no note among those.
    pub(crate) fn compare<R: Wait>(&mut self, rt: &R, notes: &mut Vec<CellNote>)
        requires { ArePlaced N.cells notes.old.items }
        ensures follower { self.new ≡ self.old }
        ensures notes { notes.new.items ≡ notes.old.items }
        ensures begins { (all : List Filing) → notes.old.items ≡ map (note_in N.cells) all → IsPrefix self.old all }
    {
        compare_each::<N, R>(rt, &mut self.notes, notes);
    }
}

/// Compares notes of the first cells with all notes.
fn compare_each<N: Naming, R: Wait>(rt: &R, own: &mut Vec<CellNote>, notes: &mut Vec<CellNote>)
    requires own { ArePlaced N.cells own.old.items }
    requires notes { ArePlaced N.cells notes.old.items }
    ensures own { own.new.items ≡ own.old.items }
    ensures notes { notes.new.items ≡ notes.old.items }
    ensures among { StandAmong own.old.items notes.old.items (length own.old.items) }
{
    for index in 0..own.len() {
        let note = note_at::<N>(own, index);
        if !compare_at::<N>(notes, index, note) {
            wait_for_good(rt);
        }
    }
}

/// The note of a place.
fn note_at<N: Naming>(own: &mut Vec<CellNote>, index: usize) -> CellNote
    requires within { index < length own.old.items }
    requires placed { ArePlaced N.cells own.old.items }
    ensures own { own.new.items ≡ own.old.items }
    ensures note { (n : Noted) → slice_get own.old.items index ≡ Some n → result ≡ n }
    ensures cell { result.cell ≡ slice_index N.cells index }
    ensures known { IsSome result.known }
{
    own[index].again()
}
