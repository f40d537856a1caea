use crate::gates::{KeepingPost, RulingPace};
use crate::lives::{KeepingTicker, assert_pings, assert_same, live, ticker};
use std::alloc::Global;
use std::process::Abort;
use std::sync::Wait;
use std::test::*;
use swim_ticker::{Ticker, knocks_are_at_starts, with_0_nobody_is_knocked_at};
use swim_wire::Id;
use swim_work::{Beat, RejoinLookup, TidingsBoard};

/// Thirteen ticks, and so five periods: member 2 is failed from the second start on.
const BEATS: [Beat; 13] = [Beat::Tick; 13];

// A life of these ticks, at whose starts is knocked with these numbers, as many as are counted.
fn assert_knocks<R: Wait + Abort + Copy + Drop>(
    rt: R,
    alloc: Global,
    ticker: &mut KeepingTicker,
    numbers: &[u8],
) -> Result<(), Fail> {
    let lived = live(rt, alloc, 100, false, ticker)?;
    assert_same(&rt, &lived.calls, &13);
    assert_pings(&rt, ticker.knock_post.sheets.as_slice(), numbers);
    assert_same(&rt, &ticker.knocks, &(numbers.len() as u64));
    assert_same(&rt, &lived.shown.knocks, &(numbers.len() as u64));
    assert_pings(&rt, ticker.post.sheets.as_slice(), &[1]);
    Ok(())
}

// Word of these knocks was left, and of the fifth period.
fn assert_told<R: Wait + Abort>(rt: &R, board: &TidingsBoard, numbers: &[u64]) {
    let tidings = board.take(rt);
    assert_same(rt, &tidings.period, &5);
    assert_same(rt, &tidings.notes.len(), &numbers.len());
    for place in 0..tidings.notes.len() {
        let note = tidings.notes.as_slice()[place];
        assert_same(rt, &Some(&note.number.get()), &numbers.get(place));
        assert_same(rt, &note.id, &Id::new(2).unwrap_or_default());
    }
}

#[test]
fn each_start_knocks(rt: HostRuntime) -> Result<(), Fail> {
    let board = TidingsBoard::new(0, 1);
    let mut ticker = ticker(rt.alloc(), &board, &BEATS, true);
    assert_knocks(rt, rt.alloc(), &mut ticker, &[2, 3, 4, 5])?;
    assert_told(&rt, &board, &[2, 3, 4, 5]);
    Ok(())
}

#[test]
fn each_second_start_knocks(rt: HostRuntime) -> Result<(), Fail> {
    knocks_are_at_starts::<KeepingPost>();
    let board = TidingsBoard::new(0, 2);
    let mut ticker = ticker(rt.alloc(), &board, &BEATS, true);
    assert_knocks(rt, rt.alloc(), &mut ticker, &[2, 4])?;
    assert_told(&rt, &board, &[2, 4]);
    Ok(())
}

// The first third start is the third one.
#[test]
fn each_third_start_knocks(rt: HostRuntime) -> Result<(), Fail> {
    let board = TidingsBoard::new(0, 3);
    let mut ticker = ticker(rt.alloc(), &board, &BEATS, true);
    assert_knocks(rt, rt.alloc(), &mut ticker, &[3])?;
    assert_told(&rt, &board, &[3]);
    Ok(())
}

#[test]
fn no_start_knocks_where_rejoin_is_0(rt: HostRuntime) -> Result<(), Fail> {
    with_0_nobody_is_knocked_at::<KeepingPost>();
    let board = TidingsBoard::new(0, 0);
    let mut ticker = ticker(rt.alloc(), &board, &BEATS, true);
    assert_knocks(rt, rt.alloc(), &mut ticker, &[])?;
    assert_told(&rt, &board, &[]);
    Ok(())
}

// A ticker goes on from life to life: the starts are counted anew, and the knocks are not.
#[test]
fn knocks_are_counted_over_lives(rt: HostRuntime) -> Result<(), Fail> {
    let board = TidingsBoard::new(0, 2);
    let beats = [Beat::Tick; 8];
    let mut ticker = ticker(rt.alloc(), &board, &beats, true);
    let first = live(rt, rt.alloc(), 5, false, &mut ticker)?;
    assert_same(
        &rt,
        &(first.calls, first.shown.knocks, ticker.knocks),
        &(5, 1, 1),
    );
    let second = live(rt, rt.alloc(), 5, false, &mut ticker)?;
    assert_same(
        &rt,
        &(second.calls, second.shown.knocks, ticker.knocks),
        &(2, 0, 1),
    );
    Ok(())
}

// The rule changes between two lives of three starts: with 0 the first one has no knock, and the next one has one at
// its second and its third start. At its first start member 2 isn't judged yet.
#[test]
fn a_rule_goes_for_the_next_life(rt: HostRuntime) -> Result<(), Fail> {
    let board = TidingsBoard::new(0, 0);
    let beats = [Beat::Tick; 16];
    let mut ticker = ticker(rt.alloc(), &board, &beats, true);
    let first = live(rt, rt.alloc(), 8, false, &mut ticker)?;
    assert_same(&rt, &(first.calls, ticker.knocks), &(8, 0));
    board.rule(1);
    let second = live(rt, rt.alloc(), 7, false, &mut ticker)?;
    assert_same(&rt, &(second.calls, ticker.knocks), &(7, 2));
    Ok(())
}

// Six starts, with the ticks 1, 4, 7, 10, 13 and 16. Each start goes by the rule that the board has then: the second by
// 1, the third by 0, and the next three by 3, of which the last one is the third since the 0.
#[test]
fn a_rule_goes_for_the_next_start(rt: HostRuntime) -> Result<(), Fail> {
    let board = TidingsBoard::new(0, 0);
    let rules = [0, 0, 0, 1, 1, 1, 0, 0, 0, 3, 3, 3, 3, 3, 3, 3];
    let mut ticker = Ticker {
        pace: RulingPace::new(&board, &rules),
        post: KeepingPost::new(rt.alloc(), true),
        knock_post: KeepingPost::new(rt.alloc(), true),
        lookup: RejoinLookup::new(&board),
        knocks: 0,
        board: &board,
    };
    let lived = live(rt, rt.alloc(), 100, false, &mut ticker)?;
    assert_same(&rt, &lived.calls, &16);
    assert_pings(&rt, ticker.knock_post.sheets.as_slice(), &[2, 6]);
    assert_same(&rt, &ticker.knocks, &2);
    Ok(())
}
