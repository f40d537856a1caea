//! What lies before a picture that begins in the midst of a run.

ghost use Rattle.std.specs.Prelude.{◌≡◌, ◌+◌, ◌<◌, ◌≤◌, length};
ghost use Rattle.std.specs.Option.{option_to_list};
ghost use Rattle.swim_history.specs.Changes.{change_by, rows_after, IsAscending};
ghost use Rattle.swim_timeline.specs.Shown.{Begins};

use crate::clock::{number_at, ticks_with};
use swim_history::{Called, Journal, KNOWN_MEMBERS, Table, change_by, change_table, table_of};

/// What a run came to before a tick.
#[derive(Drop)]
pub struct EarlierRun {
    /// How many entries lie before that tick.
    pub entries: u32,
    /// The member table behind them.
    pub rows: Table,
}

/// What a journal tells of the time before a tick.
pub(crate) fn begin_at(journal: &Journal, first: u32) -> EarlierRun
    ensures { Begins journal.now.opening journal.now.past first result }
{
    let opening = journal.opening();
    let mut ticks = 0;
    let mut beginning = EarlierRun {
        entries: 0,
        rows: table_of(opening.rows()),
    };
    for place in 0..journal.len() {
        if let Some(called) = journal.called(place) {
            let ended = number_at(opening, ticks);
            ticks = ticks_with(ticks, &called);
            if ticks < first {
                beginning.add(ended, &called);
            }
        }
    }
    beginning
}

impl EarlierRun {
    /// Takes one more entry; `ended` is the last period number used before it.
    fn add(&mut self, ended: u64, called: &Called)
        requires entries { self.old.entries < u32.MAX }
        requires ascends { IsAscending self.old.rows.items }
        requires fits { let change = change_by called.now.call called.now.reply ended in
            length (rows_after self.old.rows.items (option_to_list change)) ≤ KNOWN_MEMBERS }
        ensures entries { self.new.entries ≡ self.old.entries + 1 }
        ensures rows { let change = change_by called.now.call called.now.reply ended in
            self.new.rows.items ≡ rows_after self.old.rows.items (option_to_list change) }
    {
        self.entries += 1;
        if let Some(change) = change_by(&called.call, &called.reply, ended) {
            change_table(&mut self.rows, &change);
        }
    }
}
