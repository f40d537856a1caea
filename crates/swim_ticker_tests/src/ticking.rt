use crate::gates::KeepingPost;
use crate::lives::{assert_pings, assert_same, live, ticker};
use std::process::Abort;
use std::test::*;
use swim_ticker::{each_reply_is_posted, each_tick_is_a_call};
use swim_work::{Beat, Metered, TidingsBoard, Why};

// Two ticks among beats that are idle: two calls, and a ping of the first one. What comes after the stop isn't asked.
#[test]
fn each_tick_is_given_until_the_stop(rt: HostRuntime) -> Result<(), Fail> {
    each_tick_is_a_call::<KeepingPost>();
    let board = TidingsBoard::new(0, 0);
    let beats = [
        Beat::Idle,
        Beat::Tick,
        Beat::Idle,
        Beat::Tick,
        Beat::Stop,
        Beat::Tick,
    ];
    let mut ticker = ticker(rt.alloc(), &board, &beats, true);
    let lived = live(rt, rt.alloc(), 100, false, &mut ticker)?;
    assert_same(&rt, &lived.why, &Some(Why::Stopped));
    assert_same(&rt, &lived.calls, &2);
    assert_same(&rt, &lived.counts.unsent, &0);
    assert!(rt; ticker.pace.given.as_slice() == &beats[..5]);
    assert_pings(&rt, ticker.post.sheets.as_slice(), &[1]);
    Ok(())
}

#[test]
fn no_beat_is_asked_of_a_life_that_is_over(rt: HostRuntime) -> Result<(), Fail> {
    let board = TidingsBoard::new(0, 1);
    let mut ticker = ticker(rt.alloc(), &board, &[Beat::Tick], true);
    let lived = live(rt, rt.alloc(), 100, true, &mut ticker)?;
    assert_same(&rt, &lived.why, &None);
    assert_same(&rt, &lived.calls, &0);
    assert!(rt; ticker.pace.given.is_empty());
    Ok(())
}

// The third tick is refused, and ends the ticker.
#[test]
fn a_full_journal_ends_it(rt: HostRuntime) -> Result<(), Fail> {
    let board = TidingsBoard::new(0, 1);
    let beats = [Beat::Tick; 5];
    let mut ticker = ticker(rt.alloc(), &board, &beats, true);
    let lived = live(rt, rt.alloc(), 2, false, &mut ticker)?;
    assert_same(&rt, &lived.why, &Some(Why::JournalFull));
    assert_same(&rt, &lived.calls, &2);
    assert_same(&rt, &ticker.pace.given.len(), &3);
    assert_pings(&rt, ticker.post.sheets.as_slice(), &[1]);
    Ok(())
}

// The ping of the first period isn't taken, nor are the knocks of the second and the third: these are no datagrams of
// replies, and aren't counted as such.
#[test]
fn what_is_not_taken_is_counted(rt: HostRuntime) -> Result<(), Fail> {
    each_reply_is_posted::<KeepingPost>();
    let board = TidingsBoard::new(0, 1);
    let beats = [Beat::Tick; 8];
    let mut ticker = ticker(rt.alloc(), &board, &beats, false);
    let lived = live(rt, rt.alloc(), 100, false, &mut ticker)?;
    assert_same(&rt, &lived.counts.unsent, &1);
    assert_same(&rt, &ticker.knocks, &2);
    let shown = Metered {
        calls: 8,
        unsent: 1,
        wire: 0,
        refused: 0,
        knocks: 2,
    };
    assert_same(&rt, &lived.shown, &shown);
    Ok(())
}
