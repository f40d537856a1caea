//! Calls that are refused memory. tests/node/refusals runs these with one request for memory refused, the first, the
//! second and so on; else none is. A call that is refused changes nothing, and made again it is answered as where none
//! was refused. Where a test met a refusal of a call that it names, it writes a line.

use super::entries::{assert_entries, entry};
use super::*;
use std::alloc::AllocError;
use swim_detector::ApplyFault;
use swim_history::{Choice, DropReason, Entry, Journal, Judged, Probed};

// An entry for which nothing was drawn.
fn undrawn(number: u32, call: Call, reply: Reply) -> Entry {
    entry(0, number, call, reply, Choice::Nothing)
}

// Members 2 and 3 are up. Member 2 is probed and member 3 is asked, nobody answers, and member 2 is judged.
fn four_ticks() -> [Entry; 4] {
    let round = Choice::Round(order_of(&[2, 3]));
    [
        entry(0, 0, Call::Tick, started(None, 2, 1), round),
        undrawn(1, Call::Tick, asked_of(2, 1, &[3])),
        undrawn(2, Call::Tick, Reply::Quiet),
        undrawn(3, Call::Tick, started(Some(2), 3, 2)),
    ]
}

// Each call draws what stands next in its script, and would draw what is left to a chooser that has none: the members
// as they stand, and the last place.
fn drawing_calls() -> [Entry; 6] {
    let round = Choice::Round(order_of(&[3, 2, 4]));
    let joined = Reply::Joined { place: 0 };
    [
        entry(0, 0, Call::Tick, started(None, 3, 1), round),
        undrawn(1, Call::Tick, asked_of(3, 1, &[4])),
        undrawn(2, Call::Join(id(5), at(5)), joined),
        undrawn(3, Call::Tick, Reply::Quiet),
        undrawn(4, Call::Tick, started(Some(3), 2, 2)),
        undrawn(5, Call::Remove(id(4)), Reply::Removed),
    ]
}

// A message of a member about the probe of member 3 by member 2, in its period 9.
fn heard(kind: Kind, from: u8) -> Call {
    Call::Hear(at(from), message(kind, u32::from(from), 2, 3, 9))
}

// What member 1 sends for that probe.
fn sent(kind: Kind, to: u8) -> Reply {
    Reply::Send {
        peer: at(to),
        message: message(kind, 1, 2, 3, 9),
    }
}

// A request of member 2 is served, the ack is forwarded once, and the second one is dropped.
fn relayed_ack() -> [Entry; 3] {
    let dropped = Reply::Dropped(DropReason::NoRequest);
    [
        undrawn(0, heard(Kind::PingReq, 2), sent(Kind::Ping, 3)),
        undrawn(1, heard(Kind::Ack, 3), sent(Kind::Ack, 2)),
        undrawn(2, heard(Kind::Ack, 3), dropped),
    ]
}

fn scripted_draws(alloc: Global) -> Result<Scripted, AllocError> {
    let orders = vec![in alloc; order_of(&[3, 2, 4]), order_of(&[4, 2])]?;
    Ok(Scripted::new(orders, vec![in alloc; 0]?))
}

// It has these entries and this table, and lends the reply of the newest entry.
fn assert_holds<R: Abort>(rt: &R, recorder: &Recorder<Scripted>, entries: &[Entry], rows: &[Row]) {
    assert_entries(rt, recorder.journal(), entries);
    assert_same(rt, &recorder.table().as_slice(), &rows);
    match entries.last() {
        Some(newest) => assert_same(rt, recorder.reply(), &newest.reply),
        None => assert_same(rt, recorder.reply(), &Reply::Quiet),
    }
}

fn assert_made<R: Abort>(rt: &R, answer: Result<Entry, ApplyFault>, wanted: &Entry) {
    match answer {
        Ok(entry) => assert_same(rt, &entry, wanted),
        Err(_) => panic!(rt; "an entry"),
    }
}

// The call of an entry makes it, at once or after one refusal. Whether there was one.
fn apply<R: Abort>(
    rt: &R,
    recorder: &mut Recorder<Scripted>,
    before: &[Entry],
    wanted: &Entry,
) -> bool {
    let rows = recorder.table();
    let answer = recorder.apply(0, wanted.call);
    let refused = matches!(answer, Err(ApplyFault::NoMemory));
    if refused {
        assert_holds(rt, recorder, before, rows.as_slice());
        assert_made(rt, recorder.apply(0, wanted.call), wanted);
    } else {
        assert_made(rt, answer, wanted);
    }
    refused
}

// The same in two steps: room for the entry is made, at once or after one refusal, and then it is made at once.
fn apply_ready<R: Abort>(
    rt: &R,
    recorder: &mut Recorder<Scripted>,
    before: &[Entry],
    wanted: &Entry,
) -> bool {
    let rows = recorder.table();
    let refused = recorder.ready() == Err(ApplyFault::NoMemory);
    if refused {
        assert_holds(rt, recorder, before, rows.as_slice());
        assert!(rt; recorder.ready().is_ok());
    }
    assert_holds(rt, recorder, before, rows.as_slice());
    assert_made(rt, recorder.apply(0, wanted.call), wanted);
    refused
}

// Whether any of these calls was refused.
fn apply_each<R: Abort>(rt: &R, recorder: &mut Recorder<Scripted>, entries: &[Entry]) -> bool {
    let mut refused = false;
    for place in 0..entries.len() {
        refused = apply(rt, recorder, &entries[..place], &entries[place]) || refused;
    }
    refused
}

fn apply_each_ready<R: Abort>(
    rt: &R,
    recorder: &mut Recorder<Scripted>,
    entries: &[Entry],
) -> bool {
    let mut refused = false;
    for place in 0..entries.len() {
        refused = apply_ready(rt, recorder, &entries[..place], &entries[place]) || refused;
    }
    refused
}

// Whether any of these calls was refused. In the end it has these entries and this table.
fn made_again<R: Abort>(
    rt: &R,
    recorder: Recorder<Scripted>,
    entries: &[Entry],
    rows: &[Row],
) -> bool {
    let mut recorder = recorder;
    let refused = apply_each(rt, &mut recorder, entries);
    assert_holds(rt, &recorder, entries, rows);
    refused
}

fn made_again_ready<R: Abort>(
    rt: &R,
    recorder: Recorder<Scripted>,
    entries: &[Entry],
    rows: &[Row],
) -> bool {
    let mut recorder = recorder;
    let refused = apply_each_ready(rt, &mut recorder, entries);
    assert_holds(rt, &recorder, entries, rows);
    refused
}

fn tell(rt: &HostRuntime, refused: bool) -> Result<(), Fail> {
    if refused {
        println!(rt; "a call was refused")?;
    }
    Ok(())
}

#[test]
fn ticks_are_made_again(rt: HostRuntime) -> Result<(), Fail> {
    let recorder = recorder(&rt, rt.alloc(), 1, &[2, 3], 1000);
    let rows = [failed(2, 1), up(3)];
    tell(&rt, made_again(&rt, recorder, &four_ticks(), &rows))
}

#[test]
fn room_for_ticks_is_made_again(rt: HostRuntime) -> Result<(), Fail> {
    let recorder = recorder(&rt, rt.alloc(), 1, &[2, 3], 1000);
    let rows = [failed(2, 1), up(3)];
    tell(&rt, made_again_ready(&rt, recorder, &four_ticks(), &rows))
}

#[test]
fn a_relayed_ack_is_heard_again(rt: HostRuntime) -> Result<(), Fail> {
    let recorder = recorder(&rt, rt.alloc(), 1, &[2, 3], 1000);
    tell(
        &rt,
        made_again(&rt, recorder, &relayed_ack(), &[up(2), up(3)]),
    )
}

// The chooser isn't asked by a call that is refused: the same call, made again, draws what it would have drawn.
#[test]
fn draws_are_made_once(rt: HostRuntime) -> Result<(), Fail> {
    let alloc = rt.alloc();
    let chooser = match scripted_draws(alloc) {
        Ok(chooser) => chooser,
        Err(_) => scripted_draws(alloc)?,
    };
    let recorder = Recorder::open(alloc, opening(&rt, 1, &[2, 3, 4], 0), chooser, 1000);
    let rows = [up(2), failed(3, 1), up(5)];
    tell(&rt, made_again(&rt, recorder, &drawing_calls(), &rows))
}

// The journal of the first ones of those calls.
fn journal_of<R: Abort>(rt: &R, alloc: Global, entries: &[Entry]) -> Journal {
    let mut recorder = recorder(rt, alloc, 1, &[2, 3], 1000);
    let _ = apply_each(rt, &mut recorder, entries);
    recorder.into_journal()
}

fn make_room<R: Abort>(rt: &R, journal: &mut Journal, entries: &[Entry]) -> bool {
    let refused = journal.room().is_err();
    assert_entries(rt, journal, entries);
    if refused {
        assert!(rt; journal.room().is_ok());
        assert_entries(rt, journal, entries);
    }
    refused
}

// Each of the journals of no, one, .. four ticks is as before, with room or without.
#[test]
fn room_in_a_journal_is_made_again(rt: HostRuntime) -> Result<(), Fail> {
    tell(&rt, room_made_again(&rt, rt.alloc(), &four_ticks()))
}

fn room_made_again<R: Abort>(rt: &R, alloc: Global, entries: &[Entry]) -> bool {
    let mut refused = false;
    for count in 0..=entries.len() {
        let mut journal = journal_of(rt, alloc, &entries[..count]);
        refused = make_room(rt, &mut journal, &entries[..count]) || refused;
    }
    refused
}

fn assert_judged<R: Abort>(rt: &R, judgements: Result<Vec<Judged>, AllocError>) {
    let wanted = Judged {
        member: id(2),
        number: 1,
    };
    match judgements {
        Ok(judged) => assert_same(rt, &judged.as_slice(), &[wanted].as_slice()),
        Err(_) => panic!(rt; "judgements"),
    }
}

#[test]
fn judgements_are_told_again(rt: HostRuntime) -> Result<(), Fail> {
    tell(&rt, judgements_told_again(&rt, rt.alloc(), &four_ticks()))
}

fn judgements_told_again<R: Abort>(rt: &R, alloc: Global, entries: &[Entry]) -> bool {
    let journal = journal_of(rt, alloc, entries);
    let judgements = journal.judgements();
    let refused = judgements.is_err();
    let judgements = if refused {
        journal.judgements()
    } else {
        judgements
    };
    assert_judged(rt, judgements);
    assert_entries(rt, &journal, entries);
    refused
}

fn assert_probed<R: Abort>(rt: &R, probes: Result<Vec<Probed>, AllocError>) {
    let first = Probed {
        number: 1,
        member: id(2),
    };
    let second = Probed {
        number: 2,
        member: id(3),
    };
    match probes {
        Ok(probed) => assert_same(rt, &probed.as_slice(), &[first, second].as_slice()),
        Err(_) => panic!(rt; "probes"),
    }
}

#[test]
fn probes_are_told_again(rt: HostRuntime) -> Result<(), Fail> {
    tell(&rt, probes_told_again(&rt, rt.alloc(), &four_ticks()))
}

fn probes_told_again<R: Abort>(rt: &R, alloc: Global, entries: &[Entry]) -> bool {
    let journal = journal_of(rt, alloc, entries);
    let probes = journal.probes();
    let refused = probes.is_err();
    assert_probed(rt, if refused { journal.probes() } else { probes });
    assert_entries(rt, &journal, entries);
    refused
}
