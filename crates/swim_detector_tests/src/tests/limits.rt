ghost use Rattle.std.specs.Prelude.{◌<◌};

use super::*;
use swim_detector::ApplyFault;
use swim_history::SEATS;

// A tick of that seat gets an entry, whose number counts the calls of the seat.
fn assert_numbered<R: Abort>(rt: &R, recorder: &mut Recorder<Scripted>, seat: u8, number: u32)
    requires { seat < SEATS }
{
    match recorder.apply(seat, Call::Tick) {
        Ok(entry) => assert_same(rt, &(entry.seat, entry.number), &(seat, number)),
        Err(_) => panic!(rt; "an entry"),
    }
}

// There is room for no entry, and a tick of that seat gets none.
fn assert_full<R: Abort>(rt: &R, recorder: &mut Recorder<Scripted>, seat: u8)
    requires { seat < SEATS }
{
    assert_same(rt, &recorder.ready(), &Err(ApplyFault::JournalFull));
    let answer = recorder.apply(seat, Call::Tick);
    assert!(rt; matches!(answer, Err(ApplyFault::JournalFull)));
}

#[test]
fn a_journal_is_full_at_its_limit(rt: HostRuntime) {
    assert_full_at_2(&rt, recorder(&rt, rt.alloc(), 1, &[2, 3], 2));
}

fn assert_full_at_2<R: Abort>(rt: &R, recorder: Recorder<Scripted>) {
    let mut recorder = recorder;
    for seat in [3, 1] {
        assert!(rt; recorder.ready().is_ok());
        assert_numbered(rt, &mut recorder, seat, 0);
    }
    assert_full(rt, &mut recorder, 0);
    assert_same(rt, &recorder.journal().len(), &2);
}

#[test]
fn a_journal_of_no_entries_is_full(rt: HostRuntime) {
    let mut recorder = recorder(&rt, rt.alloc(), 1, &[2, 3], 0);
    assert_full(&rt, &mut recorder, 3);
}

#[test]
fn seats_count_their_calls(rt: HostRuntime) {
    assert_counted(&rt, recorder(&rt, rt.alloc(), 1, &[2, 3], 9));
}

fn assert_counted<R: Abort>(rt: &R, recorder: Recorder<Scripted>) {
    let mut recorder = recorder;
    for (seat, number) in [(0, 0), (2, 0), (0, 1), (0, 2), (2, 1)] {
        assert_numbered(rt, &mut recorder, seat, number);
    }
}

// The reply that it lends is that of the first start.
fn assert_lends_start<R: Abort>(rt: &R, recorder: &Recorder<Scripted>) {
    assert_same(rt, recorder.reply(), &started(None, 2, 1));
}

#[test]
fn a_reply_is_lent_until_the_next(rt: HostRuntime) {
    assert_lends(&rt, recorder(&rt, rt.alloc(), 0, &[2], 1));
}

fn assert_lends<R: Abort>(rt: &R, recorder: Recorder<Scripted>) {
    let mut recorder = recorder;
    assert_same(rt, recorder.reply(), &Reply::Quiet);
    assert!(rt; recorder.record(2, Call::Tick).is_ok());
    assert_lends_start(rt, &recorder);
    let full = recorder.record(2, Call::Tick);
    assert_same(rt, &full, &Err(ApplyFault::JournalFull));
    assert_lends_start(rt, &recorder);
}
