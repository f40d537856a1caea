//! Who is heard over a fence. The numbers are those of a bucket that a rate fills.

ghost use Rattle.std.specs.Prelude.{◌≡◌, ◌≤◌, None};
ghost use Rattle.swim_work.specs.Gates.{FitsInto};

use super::{BY_FIRST, PING, assert_same, at, book_of, ring};
use std::io;
use std::rt::Clock;
use std::sync::Wait;
use std::sync::atomic::{AtomicU64, Ordering};
use std::test::Fail;
use std::time::Duration;
use swim_guard::{ClockTimepiece, FencedLine, RingKeys, RuleBook, SealedLine, Sieve, Timepiece};
use swim_wire::Peer;
use swim_work::{Got, Line};

// A quarter of a second, in nanoseconds.
const QUARTER: u64 = 250_000_000;

// A time that goes on by a quarter of a second each time it is asked.
#[derive(Drop)]
struct Quarters {
    time: u64,
}

impl Timepiece for Quarters {
    ghost time = { λ q. q.time };

    fn now(&mut self) -> u64
        ensures told { result ≡ self.new.time }
        ensures later { self.old.time ≤ self.new.time }
    {
        self.time = self.time.saturating_add(QUARTER);
        self.time
    }
}

// A time that stands still.
#[derive(Drop)]
struct Still {}

impl Timepiece for Still {
    ghost time = { λ s. 0 };

    fn now(&mut self) -> u64 {
        0
    }
}

// A clock by which a quarter of a second goes by each time it is read, and on whose wall it is an hour earlier then.
#[derive(Drop)]
struct SetBack {
    reads: AtomicU64,
}

impl Clock for SetBack {
    fn monotonic(&self) -> io::Result<Duration> {
        let before = self.reads.fetch_add(1, Ordering::SeqCst);
        Ok(Duration::from_nanos(QUARTER.saturating_mul(before.saturating_add(1))))
    }

    fn since_1970(&self) -> io::Result<Duration> {
        let before = self.reads.fetch_add(1, Ordering::SeqCst);
        Ok(Duration::from_secs(1_000_000_000u64.saturating_sub(before.saturating_mul(3600))))
    }
}

// A line with the same datagram again and again, from the addresses of members 2, 3, 2, 3, ..
#[derive(Drop)]
struct InTurn<'d> {
    datagram: &'d [u8],
    is_second: bool,
}

impl<'d> Line for InTurn<'d> {
    ghost received = { λ line. None };

    ghost listed = { λ line. None };

    fn receive<R: Wait>(&mut self, _rt: &R, bytes: &mut [u8]) -> Got
        ensures { FitsInto result bytes.new }
    {
        let source = at(if self.is_second { 3 } else { 2 });
        self.is_second = !self.is_second;
        match bytes.get_mut(..self.datagram.len()) {
            Some(front) => {
                front.copy_from_slice(self.datagram);
                Got::Datagram(self.datagram.len(), source)
            }
            None => Got::Fault,
        }
    }

    fn list(&mut self, _members: &[Peer]) {}
}

fn in_turn<'d>(datagram: &'d [u8]) -> InTurn<'d> {
    InTurn {
        datagram,
        is_second: false,
    }
}

// Of so many datagrams how many are handed on of member 2, and how many of member 3.
fn heard<R: Wait, L: Line>(rt: &R, line: &mut L, count: u32) -> (u32, u32) {
    let mut second = 0u32;
    let mut third = 0u32;
    for _datagram in 0..count {
        let mut bytes = [0; 64];
        let got = line.receive(rt, &mut bytes);
        if bytes.get(..24) == Some(PING.as_slice()) {
            second = second.saturating_add(u32::from(got == Got::Datagram(24, at(2))));
            third = third.saturating_add(u32::from(got == Got::Datagram(24, at(3))));
        }
    }
    (second, third)
}

// Members have a bucket each: of three datagrams of each two pass.
#[test]
fn each_member_has_a_bucket(rt: HostRuntime) {
    let book = book_of(2);
    let mut line = FencedLine::new(in_turn(PING), Still {}, &book);
    line.list(&[at(2), at(3)]);
    assert_same(&rt, &heard(&rt, &mut line, 6), &(2, 2));
    assert_same(&rt, &line.thrown().count, &2);
    assert_same(&rt, &line.thrown().newest, &Some(at(3)));
}

// All others have one together: of six datagrams two pass.
#[test]
fn strangers_have_one_bucket(rt: HostRuntime) {
    let book = book_of(2);
    let mut line = FencedLine::new(in_turn(PING), Still {}, &book);
    line.list(&[at(4)]);
    assert_same(&rt, &heard(&rt, &mut line, 6), &(1, 1));
    assert_same(&rt, &line.thrown().count, &4);
}

// Datagrams come each quarter of a second, and two a second may pass: of the first four, while the burst lasts, three
// do, and then each second one.
#[test]
fn the_bucket_fills_again(rt: HostRuntime) {
    let book = book_of(2);
    let mut line = FencedLine::new(in_turn(PING), Quarters { time: 0 }, &book);
    assert_same(&rt, &heard(&rt, &mut line, 4), &(2, 1));
    assert_same(&rt, &heard(&rt, &mut line, 40), &(20, 0));
}

// So it does by a clock that goes on, whatever is made of the time of day: where that is set back, no bucket stands
// still.
#[test]
fn the_time_of_day_is_set_back(rt: HostRuntime) {
    let clock = SetBack {
        reads: AtomicU64::new(0),
    };
    let book = book_of(2);
    let mut line = FencedLine::new(in_turn(PING), ClockTimepiece::new(clock), &book);
    assert_same(&rt, &heard(&rt, &mut line, 4), &(2, 1));
    assert_same(&rt, &heard(&rt, &mut line, 40), &(20, 0));
}

// With a fence of 0 all pass.
#[test]
fn no_fence(rt: HostRuntime) {
    let book = book_of(0);
    let mut line = FencedLine::new(in_turn(PING), Still {}, &book);
    assert_same(&rt, &heard(&rt, &mut line, 100), &(50, 50));
    assert_same(&rt, &line.thrown().count, &0);
}

// The fence stands below the keys: what it refuses is not looked at, and what it lets in has to have a tag.
#[test]
fn a_fence_below_the_keys(rt: HostRuntime) -> Result<(), Fail> {
    let book = RuleBook::new(ring()?.as_slice(), 2);
    let fenced = FencedLine::new(in_turn(PING), Still {}, &book);
    let mut line = SealedLine::new(fenced, &book);
    assert_same(&rt, &heard(&rt, &mut line, 6), &(0, 0));
    assert_same(&rt, &line.thrown().count, &2);
    let fenced = FencedLine::new(in_turn(BY_FIRST), Still {}, &book);
    let mut line = SealedLine::new(fenced, &book);
    line.list(&[at(2)]);
    assert_same(&rt, &heard(&rt, &mut line, 6), &(2, 2));
    assert_same(&rt, &line.thrown().count, &0);
    Ok(())
}

// Where another rate comes into force all begin with a second's datagrams by it, and members stay listed.
#[test]
fn the_rate_changes_while_it_runs(rt: HostRuntime) {
    let book = book_of(2);
    let mut line = FencedLine::new(in_turn(PING), Still {}, &book);
    line.list(&[at(2), at(3)]);
    assert_same(&rt, &heard(&rt, &mut line, 6), &(2, 2));
    book.change(&rt, RingKeys::new(), 2);
    assert_same(&rt, &heard(&rt, &mut line, 6), &(0, 0));
    book.change(&rt, RingKeys::new(), 3);
    assert_same(&rt, &heard(&rt, &mut line, 10), &(3, 3));
    book.change(&rt, RingKeys::new(), 0);
    assert_same(&rt, &heard(&rt, &mut line, 10), &(5, 5));
}
