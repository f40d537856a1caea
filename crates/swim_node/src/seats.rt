//! Seats: the callers of a node.

ghost use Rattle.std.specs.Prelude.{◌≡◌, ◌<◌, ◌∷◌, [], Some, length, slice_get, slice_index, IsSome};
ghost use Rattle.swim_history.specs.declared.seats.Kept.{Kept};
ghost use Rattle.swim_node.specs.Cells.{noted, ArePlaced, AreNoted};
ghost use Rattle.swim_node.specs.Names.{none_counted};
ghost use Rattle.swim_node.specs.Seats.{AreNew};

use crate::cells::{CellNote, compare_at};
use crate::ledgers::Tally;
use crate::naming::Naming;
use std::alloc::Global;
use std::marker::Model;
use std::sync::Wait;
use swim_history::Kept;

/// A caller of a node. There are four, numbered 0 to 3; each may go to a thread of its own, and none can be copied.
/// It keeps what it was answered, so that at the end its calls can be compared with the journal. A contract sees its
/// number, its answered calls, oldest first, and how many of its calls met a full journal.
pub struct Seat<N: Naming> {
    pub(crate) tally: Tally<N>,
    pub(crate) calls: Vec<Kept>,
    // One of each call: that it stands in the cell of its place.
    pub(crate) notes: Vec<CellNote>,
}

// By hand, so that whoever holds one proves a single call where it is dropped, and not each field.
impl<N: Naming> Drop for Seat<N> {
    fn drop(self) {
        let Seat {
            tally: _,
            calls: _,
            notes: _,
        } = self;
    }
}

impl<N: Naming> Model for Seat<N> {
    ghost use Rattle.std.specs.Prelude.{◌≡◌, length, map};
    ghost use Rattle.swim_node.specs.Cells.{noted, AreNumbered};
    ghost use Rattle.swim_node.specs.Seats.{Seated};

    ghost Value = { Seated };

    ghost view = { λ s. record { number = s.tally.seat; calls = s.calls.items; full = s.tally.full } };

    ghost invariant = { λ s. (s.tally.calls ≡ length s.calls.items) × AreNumbered s.calls.items
        × (s.notes.items ≡ map (noted N.cells s.tally.seat) s.calls.items) };
}

impl<N: Naming> Seat<N> {
    /// Its number, 0 to 3.
    pub fn number(&self) -> u8
        ensures value { result ≡ self.now.number }
        ensures four { self.now.number < 4 }
    {
        self.tally.seat()
    }

    /// Its answered calls, oldest first.
    pub fn calls(&self) -> &[Kept]
        ensures { result.now ≡ self.now.calls }
    {
        self.calls.as_slice()
    }

    /// The seat of a tally that has counted nothing.
    fn new(alloc: Global, tally: Tally<N>) -> Seat<N>
        requires { tally ≡ none_counted tally.seat }
        ensures { result ≡ record { number = tally.seat; calls = []; full = 0 } }
    {
        Seat {
            tally,
            calls: Vec::new(alloc),
            notes: Vec::new(alloc),
        }
    }

    /// Compares the notes of its calls with those of the journal's entries. It waits for good at a call of which there
    /// is no note among those.
    pub(crate) fn compare<R: Wait>(&mut self, rt: &R, notes: &mut Vec<CellNote>)
        requires { ArePlaced N.cells notes.old.items }
        ensures seat { self.new ≡ self.old }
        ensures notes { notes.new.items ≡ notes.old.items }
        ensures noted { AreNoted N.cells self.old.number self.old.calls notes.old.items (length self.old.calls) }
    {
        for index in 0..self.calls.len() {
            let (place, note) = self.noted(index);
            if !compare_at::<N>(notes, place as usize, note) {
                wait_for_good(rt);
            }
        }
    }

    // The place of one of its calls, and the note of it.
    fn noted(&mut self, index: usize) -> (u32, CellNote)
        requires { index < length self.old.calls }
        ensures seat { self.new ≡ self.old }
        ensures call { (k : Kept) → slice_get self.old.calls index ≡ Some k →
            (result.0 ≡ k.position) × (result.1 ≡ noted N.cells self.old.number k) }
        ensures cell { result.1.cell ≡ slice_index N.cells result.0 }
        ensures known { IsSome result.1.known }
    {
        let place = self.calls[index].position;
        (place, self.notes[index].again())
    }
}

pub(crate) fn wait_for_good<R: Wait>(rt: &R)
    ensures { ⊥ }
{
    for _ in rt.forever() {}
}

/// The seats of a node that was just opened.
pub(crate) fn seats_of<N: Naming>(alloc: Global, tallies: [Tally<N>; 4]) -> [Seat<N>; 4]
    requires { tallies ≡ none_counted 0 ∷ none_counted 1 ∷ none_counted 2 ∷ none_counted 3 ∷ [] }
    ensures { AreNew result }
{
    let [first, second, third, fourth] = tallies;
    [
        Seat::new(alloc, first),
        Seat::new(alloc, second),
        Seat::new(alloc, third),
        Seat::new(alloc, fourth),
    ]
}
