//! Cells that are set once, one for each place of a node's journal. The entry at a place stands in its cell, and who
//! was there when it was set has a note of it. What stands in a cell is compared in the proofs alone, so that neither
//! it nor a note has bytes.

ghost use Rattle.std.specs.Prelude.{◌≡◌, ◌<◌, Some, length, slice_index, slice_get, IsTrue, IsSome, IfOk};
ghost use Rattle.once_cell.specs.Once.{cell_name};
ghost use Rattle.swim_node.specs.Cells.{noted, ArePlaced};

use crate::naming::Naming;
use once_cell::race::{Note, OnceBox};
use std::alloc::{AllocError, Global};
use std::marker::{Model, PhantomData};
use std::sync::Wait;
use swim_history::{Call, Kept, Reply};
use swim_trail::Remembered;

/// What stands in a cell: a call of a seat.
#[derive(Drop)]
pub(crate) struct Filed {
    seat: Remembered<u8>,
    kept: Remembered<Kept>,
}

impl Model for Filed {
    ghost use Rattle.swim_node.specs.Cells.{Filing};

    ghost Value = { Filing };

    ghost view = { λ f. record { seat = f.seat.value; kept = f.kept.value } };
}

impl Filed {
    fn new(seat: u8, kept: &Kept) -> Filed
        ensures { result ≡ record { seat = seat; kept = kept.now } }
    {
        Filed {
            seat: Remembered::of(&seat),
            kept: Remembered::of(kept),
        }
    }

    /// The box of a cell, before it is known what is to stand in it.
    pub(crate) fn blank(alloc: Global) -> Result<Box<Filed>, AllocError> {
        let blank = Kept {
            position: 0,
            number: 0,
            call: Call::Tick,
            reply: Reply::Quiet,
        };
        Ok(Box::new(alloc, Filed::new(0, &blank))?)
    }
}

/// The cells of a node that isn't open yet. A contract sees their names.
#[derive(Drop)]
pub(crate) struct BlankCells {
    cells: Vec<OnceBox<Filed>>,
}

impl Model for BlankCells {
    ghost use Rattle.std.specs.Prelude.{List, ℕ, map};
    ghost use Rattle.once_cell.specs.Once.{cell_name};

    ghost Value = { List ℕ };

    ghost view = { λ b. map cell_name b.cells.items };
}

impl BlankCells {
    /// So many cells. They take 8 bytes each.
    pub(crate) fn new(alloc: Global, count: u32) -> Result<BlankCells, AllocError>
        ensures { IfOk result (λ cells. length cells ≡ count) }
    {
        let mut cells = Vec::with_capacity(alloc, count as usize)?;
        for _place in 0..count {
            cells.push(OnceBox::new(alloc))?;
        }
        Ok(BlankCells { cells })
    }
}

/// The cells of a node.
#[derive(Drop)]
pub(crate) struct Cells<N: Naming> {
    cells: Vec<OnceBox<Filed>>,
    of: PhantomData<N>,
}

impl<N: Naming> Model for Cells<N> {
    ghost use Rattle.std.specs.Prelude.{◌≡◌, List, ℕ, length, map};
    ghost use Rattle.once_cell.specs.Once.{cell_name};

    ghost Value = { List ℕ };

    ghost view = { λ c. map cell_name c.cells.items };

    ghost invariant = { λ c. (map cell_name c.cells.items ≡ N.cells) × (length N.cells ≡ N.limit) };
}

impl<N: Naming> Cells<N> {
    pub(crate) fn new(blank: BlankCells) -> Cells<N>
        requires names { blank ≡ N.cells }
        requires limit { length N.cells ≡ N.limit }
    {
        let BlankCells { cells } = blank;
        Cells {
            cells,
            of: PhantomData,
        }
    }

    /// Puts a call of a seat into the cell of its place.
    pub(crate) fn file<R: Wait>(&self, rt: &R, seat: u8, kept: &Kept, filed: Box<Filed>) -> CellNote
        requires { kept.now.position < N.limit }
        ensures { result ≡ noted N.cells seat kept.now }
    {
        let mut filed = filed;
        *filed = Filed::new(seat, kept);
        set(rt, &self.cells[kept.position as usize], filed)
    }
}

/// Sets a cell that was never set.
fn set<R: Wait>(rt: &R, cell: &OnceBox<Filed>, filed: Box<Filed>) -> CellNote
    ensures { result ≡ record { cell = cell_name cell.now; known = Some filed.value } }
{
    let mut left = filed;
    // Only the call at this place sets this cell, so the first try succeeds.
    for _ in rt.forever() {
        let mut note = cell.note();
        match cell.set_as(left, &mut note) {
            Ok(()) => return CellNote { note },
            Err(back) => left = back,
        }
    }
    unreachable!()
}

/// What is known of a cell.
#[derive(Drop)]
pub(crate) struct CellNote {
    note: Note<Filed>,
}

impl Model for CellNote {
    ghost use Rattle.swim_node.specs.Cells.{Noted};

    ghost Value = { Noted };

    ghost view = { λ n. record { cell = n.note.cell; known = n.note.known } };
}

impl CellNote {
    /// The same note again.
    pub(crate) fn again(&mut self) -> CellNote
        ensures same { self.new ≡ self.old }
        ensures again { result ≡ self.old }
    {
        CellNote {
            note: self.note.again(),
        }
    }

    /// Two notes of one cell that know what stands in it know the same.
    fn compare(&mut self, other: CellNote)
        requires cell { other.cell ≡ self.old.cell }
        requires known { IsSome self.old.known × IsSome other.known }
        ensures same { self.new ≡ self.old }
        ensures agree { self.old ≡ other }
    {
        let CellNote { note } = other;
        self.note.compare(note);
    }
}

/// Compares a note of the cell of a place with the one among all notes, and says whether there is one.
pub(crate) fn compare_at<N: Naming>(notes: &mut Vec<CellNote>, place: usize, note: CellNote) -> bool
    requires placed { ArePlaced N.cells notes.old.items }
    requires cell { note.cell ≡ slice_index N.cells place }
    requires some { IsSome note.known }
    ensures same { notes.new.items ≡ notes.old.items }
    ensures agree { IsTrue result → slice_get notes.old.items place ≡ Some note }
{
    let is_there = place < notes.len();
    if is_there {
        notes[place].compare(note);
    }
    is_there
}
