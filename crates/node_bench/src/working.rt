//! A task, carried out.

ghost use Rattle.std.specs.Prelude.{◌≡◌, List};
ghost use Rattle.swim_history.specs.declared.entries.Entry.{Entry};

use crate::calling::{Changing, change, hear, hear_by_four, hear_by_two, tick};
use crate::fours::{Four, first_of, pair_of, two_by_two};
use crate::jobs::{Ending, both, one_and_four};
use crate::looking::{Listing, four_listing, list};
use crate::nodes::no_script;
use crate::tasks::{Mode, Task};
use std::alloc::Global;
use std::sync::Wait;
use std::sync::atomic::AtomicBool;
use std::thread::Threads;
use swim_history::Opening;
use swim_node::{Naming, Node, Parts, Seat, Viewer};
use swim_targets::Scripted;

/// Opens a node and calls it, and says how many calls were answered. `None` where there is no memory.
pub(crate) fn work<N: Naming + Send + Sync, R: Threads + Wait + Sync>(
    rt: &R,
    alloc: Global,
    parts: Parts,
    opening: Opening,
    task: Task,
) -> Option<u32>
    requires parts { parts ≡ record { limit = N.limit; ledgers = N.ledgers; log = N.log; cells = N.cells } }
    requires opening { opening ≡ N.opening }
    requires limit { task.limit ≡ N.limit }
    requires drawn { (h : List Entry) → N.drawn h }
{
    let chooser = no_script(alloc);
    match Node::<N, Scripted, &R>::open(alloc, rt, parts, opening, chooser, task.limit) {
        Ok(opened) => {
            let (node, seats, viewers) = opened;
            let hands = (two_by_two(seats), two_by_two(viewers));
            Some(carry_out(rt, &node, task, hands))
        }
        Err(_) => None,
    }
}

/// What calls a node, and what looks at its table.
type Hands<N> = (Four<Seat<N>>, Four<Viewer<N>>);

/// Does what the task tells.
fn carry_out<N: Naming + Send + Sync, H: Wait + Drop + Send, R: Threads + Wait + Sync>(
    rt: &R,
    node: &Node<N, Scripted, H>,
    task: Task,
    hands: Hands<N>,
) -> u32 {
    match task.mode {
        Mode::Open | Mode::Record => do_nothing(hands),
        Mode::Hear => hear_beside(rt, node, task, seats_of(hands)),
        Mode::Tick => tick(rt, node, first_of(seats_of(hands)), task.calls),
        Mode::Change => change_beside(rt, node, task, hands),
        Mode::List => list_beside(rt, node, task, hands),
    }
}

fn do_nothing<N: Naming>(hands: Hands<N>) -> u32 {
    drop(hands);
    0
}

/// Pings are heard, by as many threads as the task tells.
fn hear_beside<N: Naming + Send + Sync, H: Wait + Drop + Send, R: Threads + Wait + Sync>(
    rt: &R,
    node: &Node<N, Scripted, H>,
    task: Task,
    seats: Four<Seat<N>>,
) -> u32 {
    match task.beside {
        0 => hear(rt, node, first_of(seats), task.calls),
        1 => hear_by_two(rt, node, pair_of(seats), task.calls / 2),
        _ => hear_by_four(rt, node, seats, task.calls / 4),
    }
}

/// The table is changed, and listed meanwhile where the task tells so.
fn change_beside<N: Naming + Send + Sync, H: Wait + Drop + Send, R: Threads + Wait + Sync>(
    rt: &R,
    node: &Node<N, Scripted, H>,
    task: Task,
    hands: Hands<N>,
) -> u32 {
    let over = AtomicBool::new(false);
    if task.beside == 0 {
        change(rt, node, first_of(seats_of(hands)), task.calls, &over)
    } else {
        change_while_listed(rt, node, hands, task.calls, &over)
    }
}

/// The table is listed, and changed meanwhile where the task tells so.
fn list_beside<N: Naming + Send + Sync, H: Wait + Drop + Send, R: Threads + Wait + Sync>(
    rt: &R,
    node: &Node<N, Scripted, H>,
    task: Task,
    hands: Hands<N>,
) -> u32 {
    let over = AtomicBool::new(false);
    if task.beside == 0 {
        list(first_of(viewers_of(hands)), task.calls, &over)
    } else {
        list_while_changed(rt, node, hands, task, &over)
    }
}

fn seats_of<N: Naming>(hands: Hands<N>) -> Four<Seat<N>> {
    let (seats, viewers) = hands;
    drop(viewers);
    seats
}

fn viewers_of<N: Naming>(hands: Hands<N>) -> Four<Viewer<N>> {
    let (seats, viewers) = hands;
    drop(seats);
    viewers
}

/// Changes the table, which four viewers list meanwhile.
fn change_while_listed<N: Naming + Send + Sync, H: Wait + Drop + Send, R: Threads + Wait + Sync>(
    rt: &R,
    node: &Node<N, Scripted, H>,
    hands: Hands<N>,
    calls: u32,
    over: &AtomicBool,
) -> u32 {
    let (seats, viewers) = hands;
    let changing = Changing {
        rt,
        node,
        seat: first_of(seats),
        calls,
        over,
    };
    let ending = Ending {
        job: changing,
        over,
    };
    let (answered, _seen) = one_and_four(rt, ending, four_listing(viewers, over));
    answered
}

/// Lists the table, which a seat changes meanwhile.
fn list_while_changed<N: Naming + Send + Sync, H: Wait + Drop + Send, R: Threads + Wait + Sync>(
    rt: &R,
    node: &Node<N, Scripted, H>,
    hands: Hands<N>,
    task: Task,
    over: &AtomicBool,
) -> u32 {
    let (seats, viewers) = hands;
    let listing = Listing {
        viewer: first_of(viewers),
        looks: task.calls,
        over,
    };
    let changing = Changing {
        rt,
        node,
        seat: first_of(seats),
        calls: task.limit,
        over,
    };
    let ending = Ending { job: listing, over };
    let (seen, _answered) = both(rt, ending, changing);
    seen
}
