//! A life, its workers and its end.

use super::*;

// A life in which an operator lists the members, and stops it once a ping was acked.
fn live_listed<'s, R: Threads + Wait + Clock + Send + Sync + Copy + Drop>(
    rt: R,
    alloc: Global,
    signals: &'s Signals,
) -> Result<Option<Past>, Fail> {
    let door = OneDoor {
        clock: rt,
        signals,
        was_open: false,
    };
    let gates = (
        line(rt, signals, 0),
        post(signals),
        pace(rt, &signals.is_stopping, 0),
        door,
    );
    Ok(live_over(&rt, alloc, opening()?, 1000, gates)?)
}

// An operator lists the members while the line is idle; then a ping comes, and is acked; then the operator stops the
// life. None of the three could go on without the other two, so the workers are at work at the same time.
#[test]
fn workers_at_once(rt: HostRuntime) -> Result<(), Fail> {
    let signals = Signals::new(false);
    let past = live_listed(rt, rt.alloc(), &signals)?;
    assert_ended(&rt, past, Why::Stopped, 1, 0);
    assert!(rt; is_set(&signals.is_listed));
    assert!(rt; is_set(&signals.is_acked));
    assert!(rt; is_set(&signals.is_stopping));
    Ok(())
}

// A life over a line that gives so many faults and then a ping, and a post whose sends succeed or fail. It ends once
// the signal is set.
fn live_with_faults<'s, R: Threads + Wait + Clock + Send + Sync + Copy + Drop>(
    rt: R,
    alloc: Global,
    signals: &'s Signals,
    faults: u32,
    is_sending: bool,
    signal: &'s AtomicBool,
) -> Result<Option<Past>, Fail> {
    let post = AckPost {
        signals,
        is_sending,
    };
    let door = NoDoor { clock: rt };
    let gates = (line(rt, signals, faults), post, pace(rt, signal, 0), door);
    Ok(live_over(&rt, alloc, opening()?, 1000, gates)?)
}

// Fifteen faults in a row, a ping, and a stop after its ack was sent.
#[test]
fn fifteen_faults(rt: HostRuntime) -> Result<(), Fail> {
    let signals = Signals::new(true);
    let past = live_with_faults(rt, rt.alloc(), &signals, 15, true, &signals.is_acked)?;
    assert_ended(&rt, past, Why::Stopped, 1, 0);
    assert!(rt; is_set(&signals.is_acked));
    Ok(())
}

// The same where the ack can't be sent.
#[test]
fn a_failed_send(rt: HostRuntime) -> Result<(), Fail> {
    let signals = Signals::new(true);
    let past = live_with_faults(rt, rt.alloc(), &signals, 15, false, &signals.is_acked)?;
    assert_ended(&rt, past, Why::Stopped, 1, 1);
    Ok(())
}

// Sixteen faults in a row, and a stop after the sixteenth was asked for: the receiver gives up, and nothing is heard.
#[test]
fn sixteen_faults(rt: HostRuntime) -> Result<(), Fail> {
    let signals = Signals::new(true);
    let past = live_with_faults(rt, rt.alloc(), &signals, 16, true, &signals.is_failing)?;
    assert_ended(&rt, past, Why::Socket, 0, 0);
    assert_same(&rt, &signals.receives.load(Ordering::SeqCst), &16);
    Ok(())
}

// A life of five ticks, with a journal of two entries.
fn live_briefly<'s, R: Threads + Wait + Clock + Send + Sync + Copy + Drop>(
    rt: R,
    alloc: Global,
    signals: &'s Signals,
) -> Result<Option<Past>, Fail> {
    let door = NoDoor { clock: rt };
    let gates = (
        line(rt, signals, 0),
        post(signals),
        pace(rt, &signals.is_stopping, 5),
        door,
    );
    Ok(live_over(&rt, alloc, opening()?, 2, gates)?)
}

// The third tick ends the life, and is not in its journal.
#[test]
fn a_full_journal(rt: HostRuntime) -> Result<(), Fail> {
    let signals = Signals::new(false);
    let past = live_briefly(rt, rt.alloc(), &signals)?;
    assert_ended(&rt, past, Why::JournalFull, 2, 0);
    Ok(())
}

/// That a life ended so, with so many entries, and that so many datagrams couldn't be sent.
pub fn assert_ended<R: Abort>(rt: &R, past: Option<Past>, why: Why, entries: u32, unsent: u64) {
    match past {
        Some(past) => {
            assert_same(rt, &past.why, &why);
            assert_same(rt, &past.journal.len(), &entries);
            assert_same(rt, &past.unsent(), &unsent);
        }
        None => panic!(rt; "a node"),
    }
}
