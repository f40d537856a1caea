//! Entries as a journal gives them back. It stores orders and relays apart from what else an entry has.

use super::*;
use swim_history::{Called, Choice, Entry, Journal};

pub(super) fn entry(seat: u8, number: u32, call: Call, reply: Reply, choice: Choice) -> Entry {
    Entry {
        seat,
        number,
        call,
        choice,
        reply,
    }
}

// The journal has these entries, and no other.
pub(super) fn assert_entries<R: Abort>(rt: &R, journal: &Journal, entries: &[Entry]) {
    assert_same(rt, &(journal.len() as usize), &entries.len());
    for place in 0..journal.len() {
        assert_entry(rt, journal, place, entries.get(place as usize));
    }
    assert_entry(rt, journal, journal.len(), None);
}

// The entry at that place is this one, or there is none. So are its call and its reply alone.
fn assert_entry<R: Abort>(rt: &R, journal: &Journal, place: u32, expected: Option<&Entry>) {
    assert_same_at(rt, place, &journal.entry(place).as_ref(), &expected);
    match (journal.called(place), expected) {
        (Some(called), Some(entry)) => assert_called(rt, place, &called, entry),
        (None, None) => {}
        _ => panic!(rt; "a call at {place}"),
    }
}

fn assert_called<R: Abort>(rt: &R, place: u32, called: &Called, entry: &Entry) {
    assert_same_at(rt, place, &called.seat, &entry.seat);
    assert_same_at(rt, place, &called.number, &entry.number);
    assert_same_at(rt, place, &called.call, &entry.call);
    assert_same_at(rt, place, &called.reply, &entry.reply);
}

// The first round goes by the first order, and the first relays by the second.
fn called_by_two<R: Abort>(rt: &R, alloc: Global) -> Result<Journal, Fail> {
    let orders = [order_of(&[3, 2, 4]), order_of(&[4, 2])];
    let mut recorder = opened_with(alloc, opening(rt, 2, &[2, 3, 4], 0), orders)?;
    for (seat, call) in [
        (1, Call::Tick),
        (1, Call::Tick),
        (2, Call::Remove(id(2))),
        (1, Call::Tick),
        (1, Call::Tick),
        (1, Call::Tick),
    ] {
        assert!(rt; recorder.apply(seat, call).is_ok());
    }
    Ok(recorder.into_journal())
}

// A tick of seat 1, for which no round was drawn.
fn ticked(number: u32, reply: Reply) -> Entry {
    entry(1, number, Call::Tick, reply, Choice::Nothing)
}

// The entries of those calls.
fn entries_of_two() -> [Entry; 6] {
    let round = Choice::Round(order_of(&[3, 2, 4]));
    let removal = Call::Remove(id(2));
    [
        entry(1, 0, Call::Tick, started(None, 3, 1), round),
        ticked(1, asked_of(3, 1, &[4, 2])),
        entry(2, 0, removal, Reply::Removed, Choice::Nothing),
        ticked(2, Reply::Quiet),
        ticked(3, started(Some(3), 4, 2)),
        ticked(4, asked_of(4, 2, &[])),
    ]
}

#[test]
fn entries_come_back_whole(rt: HostRuntime) -> Result<(), Fail> {
    let journal = called_by_two(&rt, rt.alloc())?;
    assert_entries(&rt, &journal, &entries_of_two());
    Ok(())
}

// The choice of the entry at that place is this one.
fn assert_choice<R: Abort>(rt: &R, journal: &Journal, place: u32, expected: &Choice) {
    match journal.entry(place) {
        Some(entry) => assert_same_at(rt, place, &entry.choice, expected),
        None => panic!(rt; "an entry at {place}"),
    }
}

// Each aim acks, so that both stay listed, and the third period begins a round.
fn three_periods<R: Abort>(rt: &R, alloc: Global) -> Result<Journal, Fail> {
    let orders = [order_of(&[3, 2]), order_of(&[2, 3])];
    let mut recorder = opened_with(alloc, opening(rt, 0, &[2, 3], 0), orders)?;
    for (aim, number) in [(3, 1), (2, 2)] {
        let ack = message(Kind::Ack, u32::from(aim), 1, u32::from(aim), number);
        let calls = [Call::Tick, Call::Hear(at(aim), ack), Call::Tick, Call::Tick];
        call_each(rt, &mut recorder, &calls);
    }
    call_each(rt, &mut recorder, &[Call::Tick]);
    Ok(recorder.into_journal())
}

#[test]
fn each_round_keeps_its_order(rt: HostRuntime) -> Result<(), Fail> {
    let journal = three_periods(&rt, rt.alloc())?;
    assert_rounds(&rt, &journal);
    Ok(())
}

fn assert_rounds<R: Abort>(rt: &R, journal: &Journal) {
    assert_choice(rt, journal, 0, &Choice::Round(order_of(&[3, 2])));
    assert_choice(rt, journal, 4, &Choice::Nothing);
    assert_choice(rt, journal, 8, &Choice::Round(order_of(&[2, 3])));
}
