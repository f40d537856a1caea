//! Two lives over gates of which one call fails: of each gate the first call, the second and so on, one run after the
//! other.

ghost use Rattle.std.specs.Prelude.{None};

use super::gates::{Failing, Pad, PadShelf};
use super::shelves::Counter;
use super::*;
use std::alloc::AllocError;
use swim_keeper::LifeKeeper;

/// In so many runs at most a gate's calls fail, one in each.
const RUNS: u32 = 1000;

/// Of a gate that is asked again and again while others are waited for, so many.
const FEW: u32 = 8;

// The lines of the lives where nothing fails.
const FIRST: &[u8] = b"life 0 entries 2 judged 0 unsent 0 wire 0 refused 0\n";

const LAST: &[u8] = b"ended stopped entries 1 judged 0 unsent 0 wire 0 refused 0\n";

// Where a datagram of theirs can't be sent,
const FIRST_UNSENT: &[u8] = b"life 0 entries 2 judged 0 unsent 1 wire 0 refused 0\n";

const LAST_UNSENT: &[u8] = b"ended stopped entries 1 judged 0 unsent 1 wire 0 refused 0\n";

// where their file isn't whole or isn't kept,
const FIRST_CUT: &[u8] = b"life 0 entries 2 judged 0 unsent 0 wire 0 refused 0 journal cut\n";

const LAST_CUT: &[u8] = b"ended stopped entries 1 judged 0 unsent 0 wire 0 refused 0 journal cut\n";

// and where the operator wasn't answered, so that the ping is held back.
const LAST_UNHEARD: &[u8] = b"ended stopped entries 0 judged 0 unsent 0 wire 0 refused 0\n";

// Three ticks: two fill the journal of the first life, and the third meets it. In the second life operators may come,
// and the pace ends it after the operator's end: at a connection that failed when the ack of the ping was sent, unless
// the ping is held back.
#[derive(Drop)]
struct ThreeTicks<'s, K: Clock + Drop> {
    clock: K,
    signals: &'s Signals,
    ticks: u32,
    turns: u32,
}

impl<'s, K: Clock + Drop> ThreeTicks<'s, K> {
    fn is_over(&self) -> bool {
        let signals = self.signals;
        let is_held = !is_set(&signals.is_listed);
        let is_left = is_set(&signals.is_broken) && (is_held || is_set(&signals.is_acked));
        is_left || is_set(&signals.is_stopping)
    }
}

impl<'s, K: Clock + Drop> Pace for ThreeTicks<'s, K> {
    ghost beats = { λ pace. None };

    fn next<R: Wait>(&mut self, _rt: &R) -> Beat {
        if self.ticks < 3 {
            self.ticks += 1;
            return Beat::Tick;
        }
        set(&self.signals.is_open);
        pause(&self.clock);
        self.turns = self.turns.saturating_add(1);
        if self.turns < TURNS && !self.is_over() {
            return Beat::Idle;
        }
        Beat::Stop
    }
}

// What two lives came to: their end, how many began, what was told of them, how many files were taken back, and the
// life whose file isn't whole or isn't kept; and whether the operator was answered, and the call that was to fail was
// made.
#[derive(Drop)]
struct Ran {
    end: LivesEnd,
    begun: u64,
    told: Page,
    back: u32,
    spoilt: Option<u64>,
    is_listed: bool,
    has_failed: bool,
}

// A recorder that reads a journal once its life is over.
type PadRecorder<'s> = JournalRecorder<Pad<'s>, Never, NoOutlet, NoEntrance, NoReporter>;

// A crew over these gates.
type RowCrew<'s, R> = Crew<
    Receiver<'s, PingLine<'s, R>, AckPost<'s>>,
    Ticker<'s, ThreeTicks<'s, R>, AckPost<'s>>,
    Controller<OneDoor<'s, R>, Mute>,
    PadRecorder<'s>,
>;

fn row_crew<'s, R: Clock + Copy + Drop>(
    rt: R,
    alloc: Global,
    opening: &Opening,
    board: &'s TidingsBoard,
    signals: &'s Signals,
) -> Result<RowCrew<'s, R>, AllocError> {
    let ticks = ThreeTicks {
        clock: rt,
        signals,
        ticks: 0,
        turns: 0,
    };
    let door = OneDoor {
        clock: rt,
        signals,
        was_open: false,
    };
    let gates = (line(rt, signals, 0), post(signals), ticks, door);
    let Crew {
        first,
        second,
        third,
        recorder: _,
    } = crew(alloc, opening, board, gates)?;
    let recorder: PadRecorder<'s> = JournalRecorder::new(
        alloc,
        opening,
        Never {},
        Gallery::new(alloc),
        NoEntrance {},
        NoReporter {},
    );
    Ok(Crew {
        first,
        second,
        third,
        recorder: Box::new(alloc, recorder)?,
    })
}

// Lives of two entries each of member 1, which knows members 2 and 3: the first has two ticks, and in the second an operator
// lists the members, a ping comes and is acked, and the operator stops the life.
fn live_row<'s, R: Threads + Wait + Clock + Send + Sync + Copy + Drop>(
    rt: R,
    alloc: Global,
    board: &'s TidingsBoard,
    signals: &'s Signals,
) -> Result<Ran, Fail> {
    let opening = opening()?;
    let crew = row_crew(rt, alloc, &opening, board, signals)?;
    let terms = Terms {
        seed: [0; 32],
        limit: 2,
    };
    let mut shelf = PadShelf {
        alloc,
        signals,
        back: 0,
        spoilt: None,
    };
    let mut herald = Counter { begun: 0 };
    let mut lines = Pad {
        page: Page::new(alloc),
        signals,
        puts: Failing::Lines,
        flushes: Failing::LinesSent,
        failures: 0,
    };
    let mut notices = Page::new(alloc);
    let mut keeper = LifeKeeper {
        writer: &mut lines,
        notices: &mut notices,
        herald: &mut herald,
        shelf: &mut shelf,
        board,
        terms,
    };
    let (end, _crew) = run_lives(&rt, alloc, opening, terms, crew, &mut keeper);
    drop(keeper);
    Ok(Ran {
        end,
        begun: herald.begun,
        told: lines.page,
        back: shelf.back,
        spoilt: shelf.spoilt,
        is_listed: is_set(&signals.is_listed),
        has_failed: is_set(&signals.has_failed),
    })
}

// These lives, of which that call fails.
fn run_failing<R: Threads + Wait + Clock + Send + Sync + Copy + Drop>(
    rt: R,
    alloc: Global,
    of: Failing,
    place: u32,
) -> Result<Ran, Fail> {
    let board = TidingsBoard::new(0, 0);
    let signals = Signals::failing(of, place);
    live_row(rt, alloc, &board, &signals)
}

// Two lives began, of which the second was stopped, and these lines were told of them.
fn assert_told<R: Abort>(rt: &R, ran: &Ran, first: &[u8], last: &[u8]) {
    assert_same(rt, &ran.end, &LivesEnd::Stopped);
    assert_same(rt, &ran.begun, &2);
    let told = ran.told.text();
    assert!(rt; told.starts_with(first));
    match told.get(first.len()..) {
        Some(rest) => assert!(rt; *rest == *last),
        None => panic!(rt; "two lines"),
    }
}

// One fault of the line or of the door changes nothing: the ping and the operator come at a later call.
#[test]
fn a_fault_of_the_line_or_the_door(rt: HostRuntime) -> Result<(), Fail> {
    assert_untouched(rt, rt.alloc(), Failing::Line)?;
    assert_untouched(rt, rt.alloc(), Failing::Door)
}

fn assert_untouched<R: Threads + Wait + Clock + Abort + Send + Sync + Copy + Drop>(
    rt: R,
    alloc: Global,
    of: Failing,
) -> Result<(), Fail> {
    for place in 0..FEW {
        let ran = run_failing(rt, alloc, of, place)?;
        assert_told(&rt, &ran, FIRST, LAST);
    }
    Ok(())
}

// The first datagrams are the ping and the ping-req of the first life, and the third is the ack of the second. There is
// no other.
#[test]
fn a_send_that_fails(rt: HostRuntime) -> Result<(), Fail> {
    for place in 0..4 {
        let ran = run_failing(rt, rt.alloc(), Failing::Post, place)?;
        let (first, last) = match place {
            0 | 1 => (FIRST_UNSENT, LAST),
            2 => (FIRST, LAST_UNSENT),
            _ => (FIRST, LAST),
        };
        assert_told(&rt, &ran, first, last);
        assert!(rt; ran.has_failed == (place < 3));
    }
    Ok(())
}

// At the first look nothing was read, at a later one the list was asked for and answered. Either ends the connection
// alone.
#[test]
fn a_look_that_fails(rt: HostRuntime) -> Result<(), Fail> {
    for place in 0..FEW {
        let ran = run_failing(rt, rt.alloc(), Failing::Reader, place)?;
        assert!(rt; ran.is_listed == (place > 0));
        assert_told(&rt, &ran, FIRST, last_line(&ran));
    }
    Ok(())
}

// Each part of the list, and that of the answer to `stop`. A failure ends the connection alone.
#[test]
fn an_answer_that_fails(rt: HostRuntime) -> Result<(), Fail> {
    let mut was_listed = false;
    for place in 0..RUNS {
        let ran = run_failing(rt, rt.alloc(), Failing::Answers, place)?;
        assert!(rt; place > 0 || !ran.is_listed);
        assert_told(&rt, &ran, FIRST, last_line(&ran));
        if !ran.has_failed {
            assert!(rt; was_listed && ran.is_listed);
            return Ok(());
        }
        was_listed = ran.is_listed;
    }
    Err(Fail::new("a run without a failure"))
}

// The line of the second life, in which the ping was heard if the operator was answered.
fn last_line(ran: &Ran) -> &'static [u8] {
    if ran.is_listed { LAST } else { LAST_UNHEARD }
}

// A life without a file isn't told as cut.
#[test]
fn a_file_that_is_not_opened(rt: HostRuntime) -> Result<(), Fail> {
    for place in 0..3 {
        let ran = run_failing(rt, rt.alloc(), Failing::Open, place)?;
        assert_told(&rt, &ran, FIRST, LAST);
        assert!(rt; ran.has_failed == (place < 2));
        let back = if place < 2 { 1 } else { 2 };
        assert_same(&rt, &ran.back, &back);
    }
    Ok(())
}

// A life whose file isn't kept is.
#[test]
fn a_file_that_is_not_kept(rt: HostRuntime) -> Result<(), Fail> {
    for place in 0..3 {
        let ran = run_failing(rt, rt.alloc(), Failing::Close, place)?;
        let (first, last) = match place {
            0 => (FIRST_CUT, LAST),
            1 => (FIRST, LAST_CUT),
            _ => (FIRST, LAST),
        };
        assert_told(&rt, &ran, first, last);
        assert!(rt; ran.has_failed == (place < 2));
    }
    Ok(())
}

// So is one whose file isn't whole: wherever a write or a flush fails, that life alone is told as cut.
#[test]
fn a_file_that_fails(rt: HostRuntime) -> Result<(), Fail> {
    assert_cut(rt, rt.alloc(), Failing::File)?;
    assert_cut(rt, rt.alloc(), Failing::FileSent)
}

fn assert_cut<R: Threads + Wait + Clock + Abort + Send + Sync + Copy + Drop>(
    rt: R,
    alloc: Global,
    of: Failing,
) -> Result<(), Fail> {
    let mut before: Option<u64> = None;
    for place in 0..RUNS {
        let ran = run_failing(rt, alloc, of, place)?;
        let (first, last) = match ran.spoilt {
            Some(0) => (FIRST_CUT, LAST),
            Some(_) => (FIRST, LAST_CUT),
            None => (FIRST, LAST),
        };
        assert_told(&rt, &ran, first, last);
        assert!(rt; place > 0 || ran.spoilt == Some(0));
        if !ran.has_failed {
            // The last failure before was one of the second file.
            assert!(rt; before == Some(1) && ran.spoilt.is_none());
            return Ok(());
        }
        before = ran.spoilt;
    }
    Err(Fail::new("a run without a failure"))
}

// That a line can't be handed on changes nothing.
#[test]
fn a_line_that_is_not_sent(rt: HostRuntime) -> Result<(), Fail> {
    for place in 0..3 {
        let ran = run_failing(rt, rt.alloc(), Failing::LinesSent, place)?;
        assert_told(&rt, &ran, FIRST, LAST);
        assert!(rt; ran.has_failed == (place < 2));
    }
    Ok(())
}

// Of a line that can't be put a front is told, or all of it where its last put is an empty one; the other one as ever.
#[test]
fn a_line_that_is_not_put(rt: HostRuntime) -> Result<(), Fail> {
    for place in 0..RUNS {
        let ran = run_failing(rt, rt.alloc(), Failing::Lines, place)?;
        if !ran.has_failed {
            assert!(rt; place > 1);
            assert_told(&rt, &ran, FIRST, LAST);
            return Ok(());
        }
        assert_same(&rt, &ran.end, &LivesEnd::Stopped);
        assert_same(&rt, &ran.begun, &2);
        assert_same(&rt, &ran.back, &2);
        assert!(rt; is_a_line_short(ran.told.text()));
    }
    Err(Fail::new("a run without a failure"))
}

// Whether one line is whole, and of the other one a front or all stands there.
fn is_a_line_short(told: &[u8]) -> bool {
    let is_last_short = match told.strip_prefix(FIRST) {
        Some(rest) => LAST.starts_with(rest),
        None => false,
    };
    let is_first_short = match told.strip_suffix(LAST) {
        Some(rest) => FIRST.starts_with(rest),
        None => false,
    };
    is_last_short || is_first_short
}
