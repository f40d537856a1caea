//! Bytes that are no datagram come while a call holds the node's lock.

ghost use Rattle.std.specs.Prelude.{◌≡◌, List};
ghost use Rattle.swim_history.specs.declared.entries.Entry.{Entry};

use super::*;
use std::rt::Clock;
use std::sync::atomic::{AtomicBool, Ordering};
use std::thread::{self, join};
use std::time::Duration;
use swim_wire::WireFault;

/// How often one waits for the other, 50 microseconds each time.
const PATIENCE: u32 = 40_000;

/// What the two callers tell each other.
#[derive(Drop)]
struct Hold {
    /// A call holds the lock.
    is_held: AtomicBool,
    /// The other caller was answered.
    is_answered: AtomicBool,
    /// And that while the lock was held.
    was_answered: AtomicBool,
}

impl Hold {
    fn new() -> Hold {
        Hold {
            is_held: AtomicBool::new(false),
            is_answered: AtomicBool::new(false),
            was_answered: AtomicBool::new(false),
        }
    }
}

/// A chooser that is asked for a place under the lock, and answers when the other caller was answered.
#[derive(Drop)]
struct Holder<'h, K: Clock + Send + Drop> {
    clock: K,
    hold: &'h Hold,
}

impl<'h, K: Clock + Send + Drop> Chooser for Holder<'h, K> {
    ghost orders = { λ old ids ordered new. Unit {0} };

    ghost places = { λ old upto place new. Unit {0} };

    fn order(&mut self, _ids: &mut [Id]) {}

    fn place(&mut self, upto: u32) -> u32 {
        self.hold.is_held.store(true, Ordering::SeqCst);
        let was_answered = comes(&self.clock, &self.hold.is_answered);
        self.hold.was_answered.store(was_answered, Ordering::SeqCst);
        upto
    }
}

// Whether a signal is set, now or soon.
fn comes<K: Clock>(clock: &K, signal: &AtomicBool) -> bool {
    for _time in 0..PATIENCE {
        if signal.load(Ordering::SeqCst) {
            return true;
        }
        thread::sleep(clock, Duration::from_micros(50));
    }
    false
}

// What these bytes are answered, which came while a call held the lock.
fn hear_beside<N: Naming, C: Chooser, R: Wait + Clock + Copy + Drop>(
    rt: &R,
    node: &Node<N, C, R>,
    seat: Seat<N>,
    hold: &Hold,
) -> Option<CallFault> {
    let mut seat = seat;
    if !comes(rt, &hold.is_held) {
        return None;
    }
    let answer = node.hear(rt, &mut seat, b"no datagram", at(2)).err();
    hold.is_answered.store(true, Ordering::SeqCst);
    answer
}

// Whether member 4 could join.
fn lets_join<N: Naming, C: Chooser, R: Wait + Copy + Drop>(
    rt: &R,
    node: &Node<N, C, R>,
    seat: Seat<N>,
) -> bool {
    let mut seat = seat;
    node.join(rt, &mut seat, id(4), at(4)).is_ok()
}

// One thread joins a member, and another hears bytes meanwhile: what those are answered.
fn join_and_hear<N: Naming + Send + Sync, R: Threads + Wait + Clock + Send + Sync + Copy + Drop>(
    rt: R,
    alloc: Global,
    parts: Parts,
    opening: Opening,
    hold: &Hold,
) -> Result<Option<CallFault>, OpenFault>
    requires parts { parts ≡ record { limit = N.limit; ledgers = N.ledgers; log = N.log; cells = N.cells } }
    requires opening { opening ≡ N.opening }
    requires limit { N.limit ≡ 8 }
    requires drawn { (h : List Entry) → N.drawn h }
{
    let chooser = Holder { clock: rt, hold };
    let opened = open::<N, Holder<'_, R>, R>(rt, alloc, parts, opening, chooser, 8)?;
    Ok(hear_while_joining(&rt, opened, hold))
}

fn hear_while_joining<
    N: Naming + Send + Sync,
    C: Chooser,
    R: Threads + Wait + Clock + Send + Sync + Copy + Drop,
>(rt: &R, opened: Opened<N, C, R>, hold: &Hold) -> Option<CallFault> {
    let (node, callers) = unseen(opened);
    let ((hearing, _second), (joining, _fourth)) = callers;
    let node = &node;
    let (answer, _joined) = join(
        rt,
        move || hear_beside(rt, node, hearing, hold),
        move || lets_join(rt, node, joining),
    );
    answer
}

// They are told for what they are before the other call gives the lock back.
#[test]
fn no_datagram_waits_for_the_lock(rt: HostRuntime) -> Result<(), Fail> {
    let opening = opening(1)?;
    let parts = Parts::make(rt.alloc(), 8)?;
    let hold = Hold::new();
    let answer = join_and_hear::<Brand, _>(rt, rt.alloc(), parts, opening, &hold)?;
    assert_answered(&rt, answer, &hold);
    Ok(())
}

fn assert_answered<R: Abort>(rt: &R, answer: Option<CallFault>, hold: &Hold) {
    assert_same(rt, &answer, &Some(CallFault::Wire(WireFault::Length)));
    assert!(rt; hold.was_answered.load(Ordering::SeqCst));
}
