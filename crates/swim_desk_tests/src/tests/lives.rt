//! Lives of a node whose controller alone works.

ghost use Rattle.std.specs.Prelude.{◌≡◌, [], List};
ghost use Rattle.swim_history.specs.declared.entries.Entry.{Entry};
ghost use Rattle.swim_node.specs.News.{SawNothing};
ghost use Rattle.swim_node.specs.Seats.{AreNew};

use std::alloc::Global;
use std::marker::Brand;
use std::sync::Wait;
use std::sync::atomic::AtomicBool;
use std::test::*;
use swim_desk::{Controller, Door, Speaker};
use swim_history::Opening;
use swim_node::{Naming, Node, Parts, Seat, Viewer};
use swim_targets::Seeded;
use swim_wire::{Id, Peer, Version};
use swim_work::{Done, Meters, Why, Worker};

// Four values, two by two.
type Four<T> = ((T, T), (T, T));

/// How the controller ended, and how many calls stand in the journal.
#[derive(Clone, Copy, Debug, PartialEq, Eq)]
pub struct Lived {
    /// `None`: the life was over.
    pub why: Option<Why>,
    pub entries: u32,
    /// How many calls were refused for want of memory.
    pub refused: u64,
}

fn id(number: u32) -> Id {
    Id::new(number).unwrap_or_default()
}

// Where members stand: at 10.0.0.2:7000, 10.0.0.3:7000, ..
fn at(last: u8) -> Peer {
    Peer {
        ip: [10, 0, 0, last],
        port: 7000,
    }
}

// Member 1, which knows members 2 and 3, asks one relay, and has a timeout of one tick and a period of three.
fn opening() -> Result<Opening, Fail> {
    let rows = [(id(2), at(2)), (id(3), at(3))];
    let opening = Opening::check(id(1), 1, 1, 3, &rows, 0, Version::One).map_err(|_| "an opening")?;
    Ok(opening)
}

/// A life with this controller, of a node with so many entries at most, which draws from a seed of zeros. `None`: it got
/// no memory, or no reader of its member table.
pub fn live<R: Wait + Copy + Drop, D: Door + Drop, K: Speaker + Drop>(
    rt: R,
    alloc: Global,
    limit: u32,
    over: &AtomicBool,
    controller: &mut Controller<D, K>,
) -> Result<Option<Lived>, Fail> {
    let opening = opening()?;
    let Ok(parts) = Parts::make(alloc, limit) else {
        return Ok(None);
    };
    Ok(live_so::<Brand, R, D, K>(rt, alloc, parts, opening, limit, over, controller))
}

fn live_so<N: Naming, R: Wait + Copy + Drop, D: Door + Drop, K: Speaker + Drop>(
    rt: R,
    alloc: Global,
    parts: Parts,
    opening: Opening,
    limit: u32,
    over: &AtomicBool,
    controller: &mut Controller<D, K>,
) -> Option<Lived>
    requires parts { parts ≡ record { limit = N.limit; ledgers = N.ledgers; log = N.log; cells = N.cells } }
    requires opening { opening ≡ N.opening }
    requires limit { limit ≡ N.limit }
    requires drawn { (h : List Entry) → N.drawn h }
{
    let chooser = Seeded::new([0; 32]);
    match Node::<N, Seeded, R>::open(alloc, rt, parts, opening, chooser, limit) {
        Ok(opened) => {
            let (node, seats, viewers) = opened;
            Some(controlled(&rt, node, seats, viewers, over, controller))
        }
        Err(_) => None,
    }
}

fn controlled<N: Naming, R: Wait + Copy + Drop, D: Door + Drop, K: Speaker + Drop>(
    rt: &R,
    node: Node<N, Seeded, R>,
    seats: [Seat<N>; 4],
    viewers: [Viewer<N>; 4],
    over: &AtomicBool,
    controller: &mut Controller<D, K>,
) -> Lived
    requires seats { AreNew seats }
    requires viewers { SawNothing viewers }
{
    let (hearing, changing) = callers_of(seats);
    let (first, second) = hearing;
    let (third, fourth) = changing;
    let meters = Meters::new();
    let viewer = third_of(viewers);
    let done = controller.work(rt, &node, over, third, viewer, &meters.third);
    let Done {
        seat,
        viewer: _,
        end,
    } = done;
    let (journal, _seats, _news) = node.close(rt, [first, second, seat, fourth]);
    Lived {
        why: end.why,
        entries: journal.len(),
        refused: end.counts.refused,
    }
}

// The four seats, in order.
fn callers_of<N: Naming>(seats: [Seat<N>; 4]) -> Four<Seat<N>>
    requires { AreNew seats }
    ensures hearing { (result.0.0.number ≡ 0) × (result.0.1.number ≡ 1) }
    ensures changing { (result.1.0.number ≡ 2) × (result.1.1.number ≡ 3) }
    ensures third { (result.1.0.calls ≡ []) × (result.1.0.full ≡ 0) }
{
    let [first, second, third, fourth] = seats;
    ((first, second), (third, fourth))
}

fn third_of<N: Naming>(viewers: [Viewer<N>; 4]) -> Viewer<N>
    requires { SawNothing viewers }
    ensures { result ≡ [] }
{
    let [_first, _second, third, _fourth] = viewers;
    third
}
