//! Laws of lines that are read again. Each is the contract of a function that does nothing, so that it stays proved.

ghost use Rattle.std.specs.Prelude.{◌≡◌, ◌≤◌, ◌++◌, ℕ, List, length, map};
ghost use Rattle.swim_history.specs.declared.rows.Change.TheVariants as changes;
ghost use Rattle.swim_events.specs.declared.events.Event.TheVariants as events;
ghost use Rattle.swim_events.specs.Texts.{event_text, rows_text, table_text};
ghost use Rattle.swim_watch.specs.ReadBack.{IsReadBack, event_said, events_text, row_said, said_in, told_said};

use crate::feeds::LINE_BYTES;
use swim_events::{Event, event_of_row, line_of};
use swim_history::{Change, Row};
use swim_wire::{Id, Peer};

/// The line that an event is told in says that event to whoever reads it, and it isn't longer than a line that is read.
pub fn a_line_says_its_event(event: &Event)
    ensures says { IsReadBack event.now }
    ensures short { length (event_text event.now) ≤ LINE_BYTES }
{
    let line = line_of(event);
    let _text = line.as_str().as_bytes();
    match event {
        Event::Changed(change) => a_change_is_said(change),
        Event::Life(number) => a_life_is_said(*number),
        Event::Lost => a_loss_is_said(),
        Event::Ended => an_end_is_said(),
    }
}

/// Whoever reads what a watcher was told, a table and then events, reads the rows of the table, that it ends, and the
/// events, in order, and nothing else.
pub fn what_is_told_is_read(rows: &[Row], events: &[Event])
    ensures { said_in (table_text rows.now ++ events_text events.now) ≡ told_said rows.now events.now }
{
    rows_are_said(rows);
    events_are_said(events);
}

fn rows_are_said(rows: &[Row])
    ensures { (rest : List ℕ) → said_in (rows_text rows.now ++ rest) ≡ map row_said rows.now ++ said_in rest }
{
    let [first, others @ ..] = rows else {
        return;
    };
    let event = event_of_row(first);
    a_line_says_its_event(&event);
    rows_are_said(others);
}

fn events_are_said(events: &[Event])
    ensures { said_in (events_text events.now) ≡ map event_said events.now }
{
    let [first, others @ ..] = events else {
        return;
    };
    a_line_says_its_event(first);
    events_are_said(others);
}

fn a_change_is_said(change: &Change)
    ensures { IsReadBack (events.Changed change.now) }
{
    match change {
        Change::Up(id, peer) => a_member_is_said(*id, peer),
        Change::Failed(id, number) => a_verdict_is_said(*id, *number),
        Change::Gone(id) => a_removal_is_said(*id),
    }
}

fn a_member_is_said(id: Id, peer: &Peer)
    ensures { IsReadBack (events.Changed (changes.Up id peer.now)) }
{
    let _number = id.get();
    let _text = peer.write();
}

fn a_verdict_is_said(id: Id, number: u64)
    ensures { IsReadBack (events.Changed (changes.Failed id number)) }
{
    let _number = id.get();
}

fn a_removal_is_said(id: Id)
    ensures { IsReadBack (events.Changed (changes.Gone id)) }
{
    let _number = id.get();
}

fn a_life_is_said(number: u64)
    ensures { IsReadBack (events.Life number) }
{}

fn a_loss_is_said()
    ensures { IsReadBack events.Lost }
{}

fn an_end_is_said()
    ensures { IsReadBack events.Ended }
{}
