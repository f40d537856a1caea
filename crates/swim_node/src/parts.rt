//! What a node is opened with.

ghost use Rattle.std.specs.Prelude.{◌≡◌, IfOk};

use crate::cells::BlankCells;
use crate::change_log::BlankLog;
use crate::ledgers::Ledgers;
use std::alloc::{AllocError, Global};
use std::marker::Model;

/// What a node is opened with, beside its opening and its chooser: the names by which its types know it, and its
/// cells, 8 bytes for each entry that its journal may have.
#[derive(Drop)]
pub struct Parts {
    pub(crate) limit: u32,
    pub(crate) ledgers: Ledgers,
    pub(crate) log: BlankLog,
    pub(crate) cells: BlankCells,
}

impl Model for Parts {
    ghost use Rattle.std.specs.Prelude.{◌≡◌, length};
    ghost use Rattle.swim_node.specs.Names.{PartNames};

    ghost Value = { PartNames };

    ghost view = { λ p. record { limit = p.limit; ledgers = p.ledgers; log = p.log; cells = p.cells } };

    ghost invariant = { λ p. length p.cells ≡ p.limit };
}

impl Parts {
    /// The parts of a node whose journal may have so many entries. `Err` only where memory was refused.
    pub fn make(alloc: Global, limit: u32) -> Result<Parts, AllocError>
        ensures { IfOk result (λ parts. parts.limit ≡ limit) }
    {
        Ok(Parts {
            limit,
            ledgers: Ledgers::new(),
            log: BlankLog::new(),
            cells: BlankCells::new(alloc, limit)?,
        })
    }
}
