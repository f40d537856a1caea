//! What readers are shown.

ghost use Rattle.std.specs.Prelude.{◌≡◌, ◌≤◌, length};
ghost use Rattle.swim_history.specs.Changes.{ascending};
ghost use Rattle.swim_node.specs.Shown.{shown_after};

use crate::change_log::Beginning;
use left_right::Absorb;
use std::alloc::AllocError;
use std::marker::Model;
use swim_history::{Change, KNOWN_MEMBERS, Row, Table, change_table, table_of};

/// The member table as readers see it, and the changes that it shows.
#[derive(Drop)]
pub struct ShownTable {
    pub(crate) table: Table,
    pub(crate) shown: Beginning,
}

impl Model for ShownTable {
    ghost use Rattle.swim_history.specs.Changes.{IsAscending};
    ghost use Rattle.swim_node.specs.Shown.{Showing};

    ghost Value = { Showing };

    ghost view = { λ s. record { rows = s.table.items; shown = s.shown } };

    ghost invariant = { λ s. IsAscending s.table.items };
}

impl ShownTable {
    /// The table of these rows, after the changes of a beginning without any.
    #[tactic(auto, using(swim_history::specs::Laws::Table::ascending_ascends))]
    pub(crate) fn new(rows: &[Row], shown: Beginning) -> ShownTable
        requires { length rows.now ≤ KNOWN_MEMBERS }
        ensures { result ≡ record { rows = ascending rows.now; shown = shown } }
    {
        ShownTable {
            table: table_of(rows),
            shown,
        }
    }
}

/// What the writer does to both copies of the table: it makes a change, if there is one, and tells the changes shown
/// then.
#[derive(Drop)]
pub struct Update {
    pub(crate) change: Option<Change>,
    pub(crate) shown: Beginning,
}

impl Absorb<Update> for ShownTable {
    ghost use Rattle.swim_node.specs.Shown.{shown_after};

    type State = ShownTable;

    ghost state = { λ s. s };

    ghost applied = { λ s update. shown_after s update.change update.shown };

    ghost never_fails = { Unit {0} };

    fn absorb_first(&mut self, operation: &Update, _other: &ShownTable) -> Result<(), AllocError> {
        if let Some(change) = &operation.change {
            change_table(&mut self.table, change);
        }
        self.shown = operation.shown.again();
        Ok(())
    }
}
