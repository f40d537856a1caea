//! Whom a line is shown, and when.

ghost use Rattle.std.specs.Prelude.{None};
ghost use Rattle.swim_work.specs.Gates.{FitsInto};

use super::gates::{NotingReader, NotingWriter};
use super::*;
use std::sync::atomic::AtomicU32;
use swim_desk::Knock;
use swim_doubles::Text;
use swim_text::Sink;

// Who was shown, by the last octets of the addresses: each is a bit.
struct Shown {
    latest: AtomicU32,
    at_first_receive: AtomicU32,
    before_the_tick: AtomicU32,
    times: AtomicU32,
    is_joined: AtomicBool,
}

// By hand, so that whoever holds one proves a single call where it is dropped, and not each field.
impl Drop for Shown {
    fn drop(self) {
        let Shown {
            latest: _,
            at_first_receive: _,
            before_the_tick: _,
            times: _,
            is_joined: _,
        } = self;
    }
}

impl Shown {
    fn new() -> Shown {
        Shown {
            latest: AtomicU32::new(0),
            at_first_receive: AtomicU32::new(0),
            before_the_tick: AtomicU32::new(0),
            times: AtomicU32::new(0),
            is_joined: AtomicBool::new(false),
        }
    }
}

fn read(number: &AtomicU32) -> u32 {
    number.load(Ordering::SeqCst)
}

// The bits of these addresses.
fn bits(members: &[Peer]) -> u32 {
    let mut bits = 0u32;
    for member in members {
        bits |= 1u32.checked_shl(u32::from(member.ip[3])).unwrap_or(0);
    }
    bits
}

// A line that is always idle, and notes whom it was shown.
#[derive(Drop)]
struct NotedLine<'s, K: Clock + Drop> {
    clock: K,
    shown: &'s Shown,
    was_asked: bool,
}

impl<'s, K: Clock + Drop> Line for NotedLine<'s, K> {
    ghost received = { λ line. None };

    ghost listed = { λ line. None };

    fn receive<R: Wait>(&mut self, _rt: &R, bytes: &mut [u8]) -> Got
        ensures { FitsInto result bytes.new }
    {
        if !self.was_asked {
            self.was_asked = true;
            let latest = read(&self.shown.latest);
            self.shown.at_first_receive.store(latest, Ordering::SeqCst);
        }
        pause(&self.clock);
        let _untouched = bytes;
        Got::Idle
    }

    fn list(&mut self, members: &[Peer]) {
        self.shown.times.fetch_add(1, Ordering::SeqCst);
        self.shown.latest.store(bits(members), Ordering::SeqCst);
    }
}

// A tick once member 4 joined, and a stop once it was shown.
#[derive(Drop)]
struct JoinPace<'s, K: Clock + Drop> {
    clock: K,
    shown: &'s Shown,
    has_ticked: bool,
    turns: u32,
}

impl<'s, K: Clock + Drop> Pace for JoinPace<'s, K> {
    ghost beats = { λ pace. None };

    fn next<R: Wait>(&mut self, _rt: &R) -> Beat {
        pause(&self.clock);
        self.turns = self.turns.saturating_add(1);
        if self.turns > TURNS {
            return Beat::Stop;
        }
        let latest = read(&self.shown.latest);
        if self.has_ticked {
            return if latest == 0b11100 {
                Beat::Stop
            } else {
                Beat::Idle
            };
        }
        if latest == 0 || !is_set(&self.shown.is_joined) {
            return Beat::Idle;
        }
        self.has_ticked = true;
        self.shown.before_the_tick.store(latest, Ordering::SeqCst);
        Beat::Tick
    }
}

// A door to which an operator comes, once members were shown, and lets member 4 join.
#[derive(Drop)]
struct JoinDoor<'s, K: Clock + Drop> {
    clock: K,
    shown: &'s Shown,
    was_open: bool,
}

impl<'s, K: Clock + Drop> Door for JoinDoor<'s, K> {
    ghost faults = { λ door. None };

    type Reader = NotingReader<Text<'static>>;

    type Writer = NotingWriter<Told<'s>>;

    fn next<R: Wait>(
        &mut self,
        _rt: &R,
    ) -> Knock<NotingReader<Text<'static>>, NotingWriter<Told<'s>>> {
        if self.was_open || read(&self.shown.latest) == 0 {
            return Knock::Idle;
        }
        self.was_open = true;
        let joins = NotingReader::over(Text::new(b"join 4 10.0.0.4:7000\n"));
        let told = Told { shown: self.shown };
        Knock::Conn(joins, NotingWriter::over(told))
    }

    fn wait<R: Wait>(&mut self, _rt: &R) {
        pause(&self.clock);
    }

    fn now(&mut self) -> u64 {
        0
    }
}

// Tells that the operator was answered.
#[derive(Drop)]
struct Told<'s> {
    shown: &'s Shown,
}

impl<'s> Sink for Told<'s> {
    ghost written = { λ told. None };

    ghost failures = { λ told. 0 };

    ghost held = { λ told. 0 };

    fn put(&mut self, _text: &[u8]) -> bool {
        true
    }

    fn flush(&mut self) -> bool {
        set(&self.shown.is_joined);
        true
    }
}

// A life in which member 4 joins and is shown.
fn live_on<'s, R: Threads + Wait + Clock + Send + Sync + Copy + Drop>(
    rt: R,
    alloc: Global,
    shown: &'s Shown,
) -> Result<Option<Past>, Fail> {
    let line = NotedLine {
        clock: rt,
        shown,
        was_asked: false,
    };
    let post = TakingPost {};
    let pace = JoinPace {
        clock: rt,
        shown,
        has_ticked: false,
        turns: 0,
    };
    let door = JoinDoor {
        clock: rt,
        shown,
        was_open: false,
    };
    let gates = (line, post, pace, door);
    Ok(live_over(&rt, alloc, opening()?, 1000, gates)?)
}

// Who is in the opening is shown before the first receive, and who joins after a tick.
#[test]
fn members_are_shown(rt: HostRuntime) -> Result<(), Fail> {
    let shown = Shown::new();
    let past = live_on(rt, rt.alloc(), &shown)?;
    assert!(rt; past.is_some());
    assert_same(&rt, &read(&shown.at_first_receive), &0b1100);
    assert_same(&rt, &read(&shown.before_the_tick), &0b1100);
    assert_same(&rt, &read(&shown.latest), &0b11100);
    assert_same(&rt, &read(&shown.times), &2);
    Ok(())
}
