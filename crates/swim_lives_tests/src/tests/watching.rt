//! Those who watch a life.

ghost use Rattle.std.specs.Prelude.{None};

use super::operators::{Lines, OneOperator};
use super::readers::{Gate, Moment, Reader, Seen, Who};
use super::shelves::NoShelf;
use super::short_lives::live_shortly;
use super::*;
use swim_devices::{ClockSleeper, SleepingPace};
use swim_events::{Event, Watching};

// Who came before the life: the table then, that the life begins, and each of its changes.
const EARLY: &[u8] =
    b"up 2 10.0.0.2:7000\n.\nlife 7\nfailed 2 1\nup 3 10.0.0.3:7000\ngone 2\nended\n";

// The bytes of it as far as each change.
const FAILED: usize = 39;

const JOINED: usize = 58;

const REMOVED: usize = 65;

// Who came when member 3 had joined.
const LATE: &[u8] = b"failed 2 1\nup 3 10.0.0.3:7000\n.\ngone 2\nended\n";

// The bytes of it as far as its table, and its change.
const TABLE: usize = 32;

const CHANGED: usize = 39;

// As many bytes as may wait for one who doesn't read.
const WAITING: usize = 65_536;

// Four ticks, and a stop once those who watch were sent so much.
#[derive(Drop)]
struct FourTicks<'s, K: Clock + Drop> {
    clock: K,
    late: Moment<'s>,
    slow: Moment<'s>,
    ticks: u32,
    turns: u32,
}

impl<'s, K: Clock + Drop> FourTicks<'s, K> {
    fn new(clock: K, seen: &'s Seen) -> FourTicks<'s, K> {
        FourTicks {
            clock,
            late: Moment::of(seen, Who::Late, CHANGED),
            slow: Moment::of(seen, Who::Slow, WAITING + 5),
            ticks: 0,
            turns: 0,
        }
    }
}

impl<'s, K: Clock + Drop> Pace for FourTicks<'s, K> {
    ghost beats = { λ pace. None };

    fn next<R: Wait>(&mut self, _rt: &R) -> Beat {
        if self.ticks < 4 {
            self.ticks += 1;
            return Beat::Tick;
        }
        pause(&self.clock);
        self.turns = self.turns.saturating_add(1);
        if self.turns < TURNS && !(self.late.is_here() && self.slow.is_here()) {
            return Beat::Idle;
        }
        Beat::Stop
    }
}

// Fills the buffer of who has come and was told no member: 2 bytes of the table, 2,520 lines of 26 bytes, and one of
// 14.
fn fill<'s>(gallery: &mut Gallery<Reader<'s>>) {
    for _line in 0..2520 {
        gallery.tell(&Event::Life(u64::MAX));
    }
    gallery.tell(&Event::Life(12_345_678));
}

// Two who watch before the life, of whom the first takes nothing until the second has all, and the entrance by which a
// third comes.
fn watchers<'s>(
    alloc: Global,
    seen: &'s Seen,
    opening: &Opening,
) -> (Gallery<Reader<'s>>, Gate<'s>) {
    let mut gallery = Gallery::new(alloc);
    let waits = Moment::of(seen, Who::Early, REMOVED);
    gallery.admit(
        alloc,
        &[],
        Reader::after(waits, Who::Slow, b"lost\n", WAITING),
    );
    fill(&mut gallery);
    let watching = Watching::new(opening);
    gallery.admit(alloc, watching.rows(), Reader::new(seen, Who::Early, EARLY));
    let late = Reader::new(seen, Who::Late, LATE);
    (
        gallery,
        Gate::new(Moment::of(seen, Who::Early, JOINED), late),
    )
}

// A life with number 7 that is watched, and how many watch when it is over. They are told of the end then.
fn live_watched<'s, R: Threads + Wait + Clock + Send + Sync + Copy + Drop>(
    rt: R,
    alloc: Global,
    seen: &'s Seen,
    signals: &'s Signals,
) -> Result<usize, Fail> {
    let opening = pair()?;
    let board = TidingsBoard::new(0, 0);
    let lines = Lines::new(seen, FAILED, TABLE);
    let gates = (
        line(rt, signals, 0),
        post(signals),
        FourTicks::new(rt, seen),
        OneOperator::new(rt, alloc, lines),
    );
    let Crew {
        first,
        second,
        third,
        recorder: _,
    } = crew(alloc, &opening, &board, gates)?;
    let crew = Crew {
        first,
        second,
        third,
        recorder: Box::new(alloc, watched(rt, alloc, seen, &opening))?,
    };
    let (past, crew) = live(&rt, alloc, opening, chooser(), 1000, crew);
    if past.is_err() {
        return Err(Fail::new("a node"));
    }
    let mut crew = crew;
    crew.recorder.gallery.tell(&Event::Ended);
    crew.recorder.gallery.send(0);
    Ok(crew.recorder.gallery.len())
}

// Its recorder, which writes nothing.
fn watched<'s, R: Clock + Send + Copy + Drop>(
    rt: R,
    alloc: Global,
    seen: &'s Seen,
    opening: &Opening,
) -> JournalRecorder<Page, SleepingPace<ClockSleeper<R>>, Reader<'s>, Gate<'s>, NoReporter> {
    let (gallery, entrance) = watchers(alloc, seen, opening);
    let pause = SleepingPace::new(ClockSleeper::new(rt), 1);
    let mut recorder = JournalRecorder::new(
        alloc,
        opening,
        pause,
        gallery,
        entrance,
        NoReporter {},
    );
    recorder.number = 7;
    recorder
}

// Member 2 fails, member 3 joins once that was told, member 2 is removed once the third watcher has its table. The
// first takes nothing until the second has all: it is told of its loss then, and the others had waited for nothing.
#[test]
fn each_is_told_a_table_and_then_the_changes(rt: HostRuntime) -> Result<(), Fail> {
    let seen = Seen::new();
    let signals = Signals::new(false);
    let watching = live_watched(rt, rt.alloc(), &seen, &signals)?;
    assert_same(&rt, &watching, &2);
    assert!(rt; seen.is_all(Who::Early, EARLY.len()));
    assert!(rt; seen.is_all(Who::Late, LATE.len()));
    assert!(rt; seen.is_all(Who::Slow, WAITING + 5));
    Ok(())
}

// One who watches before the life, and an entrance by which nobody comes.
fn one_watcher<'s>(
    alloc: Global,
    seen: &'s Seen,
    opening: &Opening,
    text: &'static [u8],
) -> (Gallery<Reader<'s>>, Gate<'s>) {
    let mut gallery = Gallery::new(alloc);
    let watching = Watching::new(opening);
    gallery.admit(alloc, watching.rows(), Reader::new(seen, Who::Early, text));
    (gallery, Gate::shut(Moment::of(seen, Who::Early, 0)))
}

// Two lives of two entries each, which change nothing: who watches stays, and is told that each begins.
#[test]
fn who_watches_stays_from_life_to_life(rt: HostRuntime) -> Result<(), Fail> {
    let text = b"up 2 10.0.0.2:7000\n.\nlife 0\nlife 1\nended\n";
    let seen = Seen::new();
    let (gallery, nobody) = one_watcher(rt.alloc(), &seen, &pair()?, text);
    let pause = SleepingPace::new(ClockSleeper::new(rt), 1);
    let recorder = JournalRecorder::new(
        rt.alloc(),
        &pair()?,
        pause,
        gallery,
        nobody,
        NoReporter {},
    );
    let lived = live_shortly(&rt, rt.alloc(), NoShelf {}, recorder)?;
    assert_same(&rt, &lived.end, &LivesEnd::Stopped);
    let mut recorder = lived.recorder;
    recorder.gallery.tell(&Event::Ended);
    recorder.gallery.send(0);
    assert!(rt; seen.is_all(Who::Early, text.len()));
    Ok(())
}
