//! Lives in which a ticker alone calls the node, and what came of them.

ghost use Rattle.std.specs.Prelude.{◌≡◌, [], List};
ghost use Rattle.swim_history.specs.declared.entries.Entry.{Entry};
ghost use Rattle.swim_node.specs.News.{SawNothing};
ghost use Rattle.swim_node.specs.Seats.{AreNew};

use crate::gates::{KeepingPost, ListedPace, Sheet};
use std::alloc::Global;
use std::fmt::Debug;
use std::marker::Brand;
use std::process::Abort;
use std::sync::Wait;
use std::sync::atomic::AtomicBool;
use std::test::*;
use swim_history::{Opening, OpeningFault};
use swim_node::{Naming, Node, Parts, Seat, Viewer};
use swim_targets::Seeded;
use swim_ticker::Ticker;
use swim_wire::{Id, Peer, Version};
use swim_work::{Beat, Counts, Done, Metered, Meters, RejoinLookup, TidingsBoard, Why, Worker};

/// A ticker over gates in memory.
pub(crate) type KeepingTicker<'t, 'b> = Ticker<'t, ListedPace<'b>, KeepingPost>;

/// What came of a life.
#[derive(Drop)]
pub(crate) struct Lived {
    pub(crate) calls: usize,
    pub(crate) why: Option<Why>,
    pub(crate) counts: Counts,
    pub(crate) shown: Metered,
}

/// The two are the same. A call of this is proved at once, and an `assert_eq!` in some seconds.
pub(crate) fn assert_same<T: PartialEq + Debug, R: Abort>(rt: &R, left: &T, right: &T) {
    assert_eq!(rt; *left, *right);
}

/// Where member 2 stands.
pub(crate) fn place_of_2() -> Peer {
    Peer {
        ip: [10, 0, 0, 2],
        port: 7000,
    }
}

/// Member 1, which knows member 2, asks no relay, and has a timeout of one tick and a period of three. So its periods
/// start with the ticks 1, 4, 7, 10, .. Nobody answers: member 2 is judged with the second start.
fn pair() -> Result<Opening, OpeningFault> {
    let rows = [(Id::new(2).unwrap_or_default(), place_of_2())];
    Opening::check(Id::default(), 0, 1, 3, &rows, 0, Version::One)
}

/// A ticker whose pace gives these beats, which knocks as the board says, and whose posts take all, or nothing.
pub(crate) fn ticker<'t, 'b>(
    alloc: Global,
    board: &'t TidingsBoard,
    beats: &'b [Beat],
    is_taking: bool,
) -> KeepingTicker<'t, 'b> {
    Ticker {
        pace: ListedPace::new(alloc, beats),
        post: KeepingPost::new(alloc, is_taking),
        knock_post: KeepingPost::new(alloc, is_taking),
        lookup: RejoinLookup::new(board),
        knocks: 0,
        board,
    }
}

/// A life of member 1 with a journal of so many entries.
pub(crate) fn live<R: Wait + Copy + Drop, W: Worker>(
    rt: R,
    alloc: Global,
    limit: u32,
    is_over: bool,
    worker: &mut W,
) -> Result<Lived, Fail> {
    let parts = Parts::make(alloc, limit)?;
    live_by::<Brand, R, W>(rt, alloc, parts, pair()?, limit, is_over, worker)
}

fn live_by<N: Naming, R: Wait + Copy + Drop, W: Worker>(
    rt: R,
    alloc: Global,
    parts: Parts,
    opening: Opening,
    limit: u32,
    is_over: bool,
    worker: &mut W,
) -> Result<Lived, Fail>
    requires parts { parts ≡ record { limit = N.limit; ledgers = N.ledgers; log = N.log; cells = N.cells } }
    requires opening { opening ≡ N.opening }
    requires limit { limit ≡ N.limit }
    requires drawn { (h : List Entry) → N.drawn h }
{
    let chooser = Seeded::new([0; 32]);
    let Ok(opened) = Node::<N, Seeded, R>::open(alloc, rt, parts, opening, chooser, limit) else {
        return Err(Fail::new("a node"));
    };
    let (node, seats, viewers) = opened;
    let over = AtomicBool::new(is_over);
    let meters = Meters::new();
    let done = worker.work(
        &rt,
        &node,
        &over,
        second(seats),
        second_of(viewers),
        &meters.second,
    );
    let Done {
        seat,
        viewer: _,
        end,
    } = done;
    Ok(Lived {
        calls: seat.calls().len(),
        why: end.why,
        counts: end.counts,
        shown: meters.read(),
    })
}

/// The second seat.
fn second<N: Naming>(seats: [Seat<N>; 4]) -> Seat<N>
    requires { AreNew seats }
    ensures { (result.calls ≡ []) × (result.full ≡ 0) }
{
    let [_, second, _, _] = seats;
    second
}

/// The second viewer.
fn second_of<N: Naming>(viewers: [Viewer<N>; 4]) -> Viewer<N>
    requires { SawNothing viewers }
    ensures { result ≡ [] }
{
    let [_, second, _, _] = viewers;
    second
}

/// These datagrams are pings of member 1 for member 2, with these numbers.
pub(crate) fn assert_pings<R: Abort>(rt: &R, sheets: &[Sheet], numbers: &[u8]) {
    assert_same(rt, &sheets.len(), &numbers.len());
    for place in 0..sheets.len() {
        assert_ping(rt, sheets.get(place), numbers.get(place));
    }
}

fn assert_ping<R: Abort>(rt: &R, sheet: Option<&Sheet>, number: Option<&u8>) {
    match (sheet, number) {
        (Some(sheet), Some(number)) => {
            let ping = [
                0x53, 0x57, 1, 1, 0, 0, 0, 1, 0, 0, 0, 1, 0, 0, 0, 2, 0, 0, 0, 0, 0, 0, 0, *number,
            ];
            assert!(rt; sheet.bytes.as_slice() == &ping[..]);
            assert_same(rt, &sheet.to, &place_of_2());
        }
        _ => panic!(rt; "a ping"),
    }
}
