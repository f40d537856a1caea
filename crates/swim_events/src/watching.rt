//! What a follower of a journal knows of the member table.

ghost use Rattle.std.specs.Prelude.{◌≡◌, ◌≤◌, ◌∷◌, [], List, length};
ghost use Rattle.swim_history.specs.declared.entries.Entry.{Entry};
ghost use Rattle.swim_history.specs.Setting.{Setting, IsSetting};
ghost use Rattle.swim_history.specs.Events.{is_starting};
ghost use Rattle.swim_history.specs.Changes.{change_by, IsAscending};
ghost use Rattle.swim_history.specs.Run.{IsRun};
ghost use Rattle.swim_events.specs.Watching.{known, rows_then, number_then};

use std::marker::Model;
use swim_history::{
    Call, Change, KNOWN_MEMBERS, Opening, Reply, Row, Table, change_by, change_table, table_of,
};

/// The member table and the last period number used, as the entries of a journal make them, read one by one. A contract
/// sees both.
#[derive(Drop)]
pub struct Watching {
    rows: Table,
    number: u64,
}

impl Model for Watching {
    ghost use Rattle.swim_history.specs.Changes.{IsAscending};
    ghost use Rattle.swim_events.specs.Watching.{Known};

    ghost Value = { Known };

    ghost view = { λ w. record { rows = w.rows.items; number = w.number } };

    ghost invariant = { λ w. IsAscending w.rows.items };
}

impl Watching {
    /// What is known where no entry was read. It takes no memory.
    pub fn new(opening: &Opening) -> Watching
        ensures { result ≡ known opening.now [] }
    {
        Watching {
            rows: table_of(opening.rows()),
            number: opening.last(),
        }
    }

    /// Goes one entry on: the change that it makes, if it makes one. Where the entries are those of a run, what is
    /// known then is the run's table and its last period number.
    pub fn next(&mut self, call: &Call, reply: &Reply) -> Option<Change>
        ensures change { result ≡ change_by call.now reply.now self.old.number }
        ensures rows { self.new.rows ≡ rows_then result self.old.rows }
        ensures number { self.new.number ≡ number_then reply.now self.old.number }
        ensures known { (o : Setting) (h : List Entry) (e : Entry) → IsSetting o → IsRun o (e ∷ h) →
            e.call ≡ call.now → e.reply ≡ reply.now → self.old ≡ known o h → self.new ≡ known o (e ∷ h) }
    {
        self.read(call, reply)
    }

    /// The member table, ascending by id.
    pub fn rows(&self) -> &[Row]
        ensures value { result.now ≡ self.now.rows }
        ensures ascends { IsAscending result.now }
        ensures bound { length result.now ≤ KNOWN_MEMBERS }
    {
        self.rows.as_slice()
    }

    /// The last period number used.
    pub fn number(&self) -> u64
        ensures { result ≡ self.now.number }
    {
        self.number
    }

    /// Goes one entry on.
    fn read(&mut self, call: &Call, reply: &Reply) -> Option<Change>
        ensures change { result ≡ change_by call.now reply.now self.old.number }
        ensures rows { self.new.rows ≡ rows_then result self.old.rows }
        ensures number { self.new.number ≡ number_then reply.now self.old.number }
    {
        let change = change_by(call, reply, self.number);
        make_change(&mut self.rows, &change);
        self.number = number_after(self.number, reply);
        change
    }
}

/// Makes a change, if there is one.
fn make_change(table: &mut Table, change: &Option<Change>)
    requires { IsAscending table.old.items }
    ensures rows { table.new.items ≡ rows_then change.now table.old.items }
    ensures ascends { IsAscending table.new.items }
{
    if let Some(change) = change {
        change_table(table, change);
    }
}

/// The last period number used after an entry.
fn number_after(number: u64, reply: &Reply) -> u64
    ensures { result ≡ number_then reply.now number }
{
    if is_start(reply) {
        number.saturating_add(1)
    } else {
        number
    }
}

/// Whether a period begins.
fn is_start(reply: &Reply) -> bool
    ensures { result ≡ is_starting reply.now }
{
    matches!(reply, Reply::Started { .. })
}
