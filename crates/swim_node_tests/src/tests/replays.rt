//! A journal, replayed through another detector.

use super::*;
use swim_detector::Recorder;
use swim_history::{Choice, Entry};

/// The tables that a reader saw, in order, and how many of them were met in a replay.
#[derive(Drop)]
pub(crate) struct Watched {
    tables: Vec<Table>,
    met: usize,
}

impl Watched {
    pub(crate) fn new(tables: Vec<Table>) -> Watched {
        Watched { tables, met: 0 }
    }

    // The next ones are this table.
    fn meet(&mut self, table: &Table) {
        let Some(next) = self.tables.as_slice().get(self.met) else {
            return;
        };
        if next.as_slice() == table.as_slice() {
            self.met += 1;
        }
    }
}

/// The journal is what another detector writes that is called the same and draws the same; and of the tables that it
/// has on the way, each reader saw some, in their order.
pub(crate) fn assert_replays<R: Abort>(
    rt: &R,
    alloc: Global,
    opening: Opening,
    journal: &Journal,
    lists: [Watched; 4],
) -> Result<(), Fail> {
    let script = script_of(alloc, journal)?;
    let recorder = Recorder::open(alloc, opening, script, journal.len());
    replay(rt, recorder, journal, lists);
    Ok(())
}

fn replay<R: Abort>(rt: &R, recorder: Recorder<Scripted>, journal: &Journal, lists: [Watched; 4]) {
    let mut recorder = recorder;
    let mut lists = lists;
    for place in 0..journal.len() {
        meet_all(&mut lists, &recorder.table());
        assert_again(rt, &mut recorder, journal.entry(place));
    }
    meet_all(&mut lists, &recorder.table());
    assert_all_met(rt, &lists);
}

// The detector writes this entry again.
fn assert_again<R: Abort>(rt: &R, recorder: &mut Recorder<Scripted>, entry: Option<Entry>) {
    let Some(entry) = entry else {
        panic!(rt; "an entry")
    };
    assert!(rt; entry.seat < 4);
    match recorder.apply(entry.seat, entry.call) {
        Ok(again) => assert_same(rt, &again, &entry),
        Err(_) => panic!(rt; "a reply"),
    }
}

fn assert_all_met<R: Abort>(rt: &R, lists: &[Watched]) {
    for watched in lists {
        assert_same(rt, &watched.met, &watched.tables.len());
    }
}

fn meet_all(lists: &mut [Watched], table: &Table) {
    for watched in lists {
        watched.meet(table);
    }
}

// What was drawn for a journal of a node that began with members 2 and 3.
fn script_of(alloc: Global, journal: &Journal) -> Result<Scripted, Fail> {
    let mut orders = Vec::new(alloc);
    let mut places = Vec::new(alloc);
    let mut up = order_of(&[2, 3]);
    for place in 0..journal.len() {
        let entry = journal.entry(place).ok_or("an entry")?;
        if let Some(order) = order_drawn(&entry, up.as_slice()) {
            orders.push(order)?;
        }
        if let Reply::Joined { place } = &entry.reply {
            places.push(*place)?;
        }
        note_up(&mut up, &entry);
    }
    Ok(Scripted::new(orders, places))
}

// The order that was drawn for an entry: that of a round, or one that begins with the relays that are asked.
fn order_drawn(entry: &Entry, up: &[Id]) -> Option<Order> {
    match (&entry.choice, &entry.reply) {
        (Choice::Round(order), _) => {
            let mut drawn = Order::new();
            let _ = drawn.try_extend_from_slice(order.as_slice());
            Some(drawn)
        }
        (_, Reply::Asked { target, relays, .. }) if !relays.is_empty() => {
            let mut drawn = Order::new();
            for relay in relays.as_slice() {
                let _ = drawn.try_push(relay.id);
            }
            for id in up {
                if *id != *target && !drawn.as_slice().contains(id) {
                    let _ = drawn.try_push(*id);
                }
            }
            Some(drawn)
        }
        _ => None,
    }
}

// Who is up after an entry.
fn note_up(up: &mut Order, entry: &Entry) {
    match (&entry.call, &entry.reply) {
        (Call::Join(id, _), Reply::Joined { .. }) => {
            let _ = up.try_push(*id);
        }
        (Call::Remove(id), Reply::Removed) => forget(up, *id),
        (
            _,
            Reply::Started {
                judged: Some(id),
                ..
            },
        ) => forget(up, *id),
        _ => {}
    }
}

fn forget(up: &mut Order, id: Id) {
    if let Some(place) = up.as_slice().iter().position(|other| *other == id) {
        up.remove(place);
    }
}
