//! Marks of failed members, so that a message of any other is soon done with.

ghost use Rattle.std.specs.Prelude.{◌≡◌, ◌%◌};
ghost use Rattle.swim_rejoin.specs.Rejoiners.{AreMarked, is_marked};

use swim_history::{Row, RowState};
use swim_wire::Id;

/// How many marks there are. Members whose ids leave the same rest share one.
const MARKS: usize = 256;

/// A mark for each failed member.
#[derive(Clone, Copy)]
pub(crate) struct Marks {
    marks: [bool; MARKS],
}

impl Marks {
    /// No marks.
    pub(crate) fn none() -> Marks {
        Marks {
            marks: [false; MARKS],
        }
    }

    /// The marks of the failed members among these.
    pub(crate) fn of(rows: &[Row]) -> Marks
        ensures { AreMarked rows.now result.marks }
    {
        let mut marks = [false; MARKS];
        for row in rows {
            if row.state != RowState::Up {
                marks[place_of(row.id)] = true;
            }
        }
        Marks { marks }
    }

    /// Whether a member has a mark. One that is not failed may share another's.
    pub(crate) fn has(&self, id: Id) -> bool
        ensures { result ≡ is_marked self.now.marks id }
    {
        self.marks[place_of(id)]
    }
}

/// The place of a member's mark.
fn place_of(id: Id) -> usize
    ensures { result ≡ id % MARKS }
{
    id.get() as usize % MARKS
}
