//! By what the types of a node know each other.

use std::marker::Brand;

/// Which node a value is of. A seat, a viewer and news carry their node in their type, by a parameter with this
/// bound. It exists in the proofs alone: a program passes `Brand` where it calls the function in which a node is
/// opened and used.
pub trait Naming {
    ghost use Rattle.std.specs.Prelude.{ℕ, List};
    ghost use Rattle.logbook.specs.Pages.{Book};
    ghost use Rattle.swim_history.specs.Setting.{Setting};
    ghost use Rattle.swim_history.specs.declared.entries.Entry.{Entry};

    /// What its detector starts from.
    ghost opening: { Setting };

    /// How many entries its journal may have.
    ghost limit: { ℕ };

    /// Its five ledgers, one for each seat's calls, and one for the calls that met a full journal.
    ghost ledgers: { List ℕ };

    /// Its list of changes.
    ghost log: { Book };

    /// Its cells, one for each entry.
    ghost cells: { List ℕ };

    /// The histories that are drawn from the chooser that it is opened with.
    ghost drawn: { List Entry → Type 0 };
}

impl Naming for Brand {
    ghost use Rattle.std.specs.Prelude.{[]};
    ghost use Rattle.swim_wire.specs.declared.messages.Version.TheVariants.{One};

    ghost opening = { record { me = 0; k = 0; rtt = 0; period = 0; rows = []; last = 0; version = One } };

    ghost limit = { 0 };

    ghost ledgers = { [] };

    ghost log = { record { number = 0; log_name = 0; cells_name = 0 } };

    ghost cells = { [] };

    ghost drawn = { λ h. Unit {0} };
}
