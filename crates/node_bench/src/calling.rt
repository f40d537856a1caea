//! Calls of a node, again and again. Each function says how many were answered.

use crate::fours::Four;
use crate::jobs::{Job, all_four, both};
use crate::nodes::{SOMEWHERE, passer, ping};
use std::sync::Wait;
use std::sync::atomic::{AtomicBool, Ordering};
use std::thread::Threads;
use swim_node::{Naming, Node, Seat};
use swim_targets::Scripted;
use swim_wire::encode;

/// So many pings are heard.
pub(crate) fn hear<N: Naming, H: Wait + Drop, R: Wait>(
    rt: &R,
    node: &Node<N, Scripted, H>,
    seat: Seat<N>,
    calls: u32,
) -> u32 {
    let mut seat = seat;
    let ping = encode(&ping());
    let mut answered = 0_u32;
    for _turn in 0..calls {
        if hears(rt, node, &mut seat, ping.as_slice()) {
            answered = answered.saturating_add(1);
        }
    }
    answered
}

fn hears<N: Naming, H: Wait + Drop, R: Wait>(
    rt: &R,
    node: &Node<N, Scripted, H>,
    seat: &mut Seat<N>,
    ping: &[u8],
) -> bool {
    node.hear(rt, seat, ping, SOMEWHERE).is_ok()
}

/// A seat that hears so many pings.
#[derive(Drop)]
pub(crate) struct Hearing<'r, 'n, N: Naming, H: Wait + Drop, R: Wait> {
    pub(crate) rt: &'r R,
    pub(crate) node: &'n Node<N, Scripted, H>,
    pub(crate) seat: Seat<N>,
    pub(crate) calls: u32,
}

impl<'r, 'n, N: Naming, H: Wait + Drop, R: Wait> Job for Hearing<'r, 'n, N, H, R> {
    type Done = u32;

    fn carry_out(self) -> u32 {
        let Hearing {
            rt,
            node,
            seat,
            calls,
        } = self;
        hear(rt, node, seat, calls)
    }
}

/// So many pings are heard by each of two threads.
pub(crate) fn hear_by_two<N: Naming + Send + Sync, H: Wait + Drop + Send, R: Threads + Wait + Sync>(
    rt: &R,
    node: &Node<N, Scripted, H>,
    seats: (Seat<N>, Seat<N>),
    calls: u32,
) -> u32 {
    let (one, other) = two_hearing(rt, node, seats, calls);
    sum(both(rt, one, other))
}

/// So many pings are heard by each of four threads.
pub(crate) fn hear_by_four<
    N: Naming + Send + Sync,
    H: Wait + Drop + Send,
    R: Threads + Wait + Sync,
>(rt: &R, node: &Node<N, Scripted, H>, seats: Four<Seat<N>>, calls: u32) -> u32 {
    let (some, others) = seats;
    let some = two_hearing(rt, node, some, calls);
    let others = two_hearing(rt, node, others, calls);
    let (some, others) = all_four(rt, (some, others));
    sum((sum(some), sum(others)))
}

fn two_hearing<'r, 'n, N: Naming, H: Wait + Drop, R: Wait>(
    rt: &'r R,
    node: &'n Node<N, Scripted, H>,
    seats: (Seat<N>, Seat<N>),
    calls: u32,
) -> (Hearing<'r, 'n, N, H, R>, Hearing<'r, 'n, N, H, R>) {
    let (first, second) = seats;
    let one = Hearing {
        rt,
        node,
        seat: first,
        calls,
    };
    let other = Hearing {
        rt,
        node,
        seat: second,
        calls,
    };
    (one, other)
}

fn sum(counts: (u32, u32)) -> u32 {
    let (some, others) = counts;
    some.saturating_add(others)
}

/// So many ticks.
pub(crate) fn tick<N: Naming, H: Wait + Drop, R: Wait>(
    rt: &R,
    node: &Node<N, Scripted, H>,
    seat: Seat<N>,
    calls: u32,
) -> u32 {
    let mut seat = seat;
    let mut answered = 0_u32;
    for _turn in 0..calls {
        if ticks(rt, node, &mut seat) {
            answered = answered.saturating_add(1);
        }
    }
    answered
}

fn ticks<N: Naming, H: Wait + Drop, R: Wait>(
    rt: &R,
    node: &Node<N, Scripted, H>,
    seat: &mut Seat<N>,
) -> bool {
    node.tick(rt, seat).is_ok()
}

/// A member joins and leaves in turn, until it is over or so many calls were made.
pub(crate) fn change<N: Naming, H: Wait + Drop, R: Wait>(
    rt: &R,
    node: &Node<N, Scripted, H>,
    seat: Seat<N>,
    calls: u32,
    over: &AtomicBool,
) -> u32 {
    let mut seat = seat;
    let mut answered = 0_u32;
    for turn in 0..calls {
        if over.load(Ordering::SeqCst) {
            break;
        }
        let is_answered = if turn % 2 == 0 {
            joins(rt, node, &mut seat)
        } else {
            leaves(rt, node, &mut seat)
        };
        if is_answered {
            answered = answered.saturating_add(1);
        }
    }
    answered
}

/// A seat that lets a member join and leave in turn.
#[derive(Drop)]
pub(crate) struct Changing<'r, 'n, 'o, N: Naming, H: Wait + Drop, R: Wait> {
    pub(crate) rt: &'r R,
    pub(crate) node: &'n Node<N, Scripted, H>,
    pub(crate) seat: Seat<N>,
    pub(crate) calls: u32,
    pub(crate) over: &'o AtomicBool,
}

impl<'r, 'n, 'o, N: Naming, H: Wait + Drop, R: Wait> Job for Changing<'r, 'n, 'o, N, H, R> {
    type Done = u32;

    fn carry_out(self) -> u32 {
        let Changing {
            rt,
            node,
            seat,
            calls,
            over,
        } = self;
        change(rt, node, seat, calls, over)
    }
}

fn joins<N: Naming, H: Wait + Drop, R: Wait>(
    rt: &R,
    node: &Node<N, Scripted, H>,
    seat: &mut Seat<N>,
) -> bool {
    node.join(rt, seat, passer(), SOMEWHERE).is_ok()
}

fn leaves<N: Naming, H: Wait + Drop, R: Wait>(
    rt: &R,
    node: &Node<N, Scripted, H>,
    seat: &mut Seat<N>,
) -> bool {
    node.remove(rt, seat, passer()).is_ok()
}
