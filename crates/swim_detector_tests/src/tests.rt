mod changes;
mod entries;
mod limits;
mod lives;
mod long_journals;
mod refusals;
mod steps;

use arrayvec::ArrayVec;
use std::alloc::Global;
use std::fmt::Debug;
use std::process::Abort;
use std::test::*;
use swim_detector::Recorder;
use swim_history::{Call, Opening, Probe, Relay, Reply, Row, RowState};
use swim_targets::{Order, Scripted};
use swim_wire::{Id, Kind, Message, Peer, PeriodNumber, Version};

// The two are the same. A call of this is proved at once, and an `assert_eq!` in some seconds.
fn assert_same<T: PartialEq + Debug, R: Abort>(rt: &R, left: &T, right: &T) {
    assert_eq!(rt; *left, *right);
}

// The same, of what stands at a place.
fn assert_same_at<T: PartialEq + Debug, R: Abort>(rt: &R, place: u32, left: &T, right: &T) {
    assert_eq!(rt; *left, *right, "at {place}");
}

fn id(number: u32) -> Id {
    Id::new(number).unwrap_or_default()
}

// Members stand at 10.0.0.1:7000, 10.0.0.2:7000, ..
fn at(last: u8) -> Peer {
    Peer {
        ip: [10, 0, 0, last],
        port: 7000,
    }
}

fn order_of(numbers: &[u32]) -> Order {
    let mut order = Order::new();
    for number in numbers {
        let _ = order.try_push(id(*number));
    }
    order
}

// Member 1, which knows these others, with a timeout of one tick and a period of three. Its own messages are of version
// 1.
fn opening<R: Abort>(rt: &R, k: u32, others: &[u8], last: u64) -> Opening {
    opening_in(rt, k, others, last, Version::One)
}

// The same, whose own messages are of that version.
fn opening_in<R: Abort>(rt: &R, k: u32, others: &[u8], last: u64, version: Version) -> Opening {
    let mut rows = ArrayVec::<(Id, Peer), 128>::new();
    for other in others {
        let _ = rows.try_push((id(u32::from(*other)), at(*other)));
    }
    match Opening::check(id(1), k, 1, 3, rows.as_slice(), last, version) {
        Ok(opening) => opening,
        Err(_) => panic!(rt; "an opening"),
    }
}

// The detector of member 1, which knows these others.
fn recorder<R: Abort>(
    rt: &R,
    alloc: Global,
    k: u32,
    others: &[u8],
    limit: u32,
) -> Recorder<Scripted> {
    opened(alloc, opening(rt, k, others, 0), limit)
}

// The detector of that opening, whose chooser leaves each order as it is and takes each last place.
fn opened(alloc: Global, opening: Opening, limit: u32) -> Recorder<Scripted> {
    let chooser = Scripted::new(Vec::new(alloc), Vec::new(alloc));
    Recorder::open(alloc, opening, chooser, limit)
}

// The same, whose chooser first draws these two orders.
fn opened_with(
    alloc: Global,
    opening: Opening,
    orders: [Order; 2],
) -> Result<Recorder<Scripted>, Fail> {
    let [first, second] = orders;
    let orders = vec![in alloc; first, second]?;
    let chooser = Scripted::new(orders, Vec::new(alloc));
    Ok(Recorder::open(alloc, opening, chooser, 1000))
}

// A message of version 1.
fn message(kind: Kind, sender: u32, initiator: u32, target: u32, number: u64) -> Message {
    Message {
        version: Version::One,
        kind,
        sender: id(sender),
        initiator: id(initiator),
        target: id(target),
        number: PeriodNumber::new(number).unwrap_or_default(),
        at: None,
    }
}

// Each of these calls of seat 0 gets a reply.
fn call_each<R: Abort>(rt: &R, recorder: &mut Recorder<Scripted>, calls: &[Call]) {
    for call in calls {
        assert!(rt; recorder.apply(0, *call).is_ok());
    }
}

// A start that judges a member, if any, and probes another.
fn started(judged: Option<u32>, target: u8, number: u64) -> Reply {
    let probe = Probe {
        target: id(u32::from(target)),
        peer: at(target),
        number,
    };
    Reply::Started {
        judged: judged.map(id),
        probe: Some(probe),
    }
}

fn asked_of(target: u8, number: u64, relays: &[u8]) -> Reply {
    let mut asked = ArrayVec::<Relay, 8>::new();
    for relay in relays {
        let _ = asked.try_push(Relay {
            id: id(u32::from(*relay)),
            peer: at(*relay),
        });
    }
    Reply::Asked {
        target: id(u32::from(target)),
        peer: at(target),
        number,
        relays: asked,
    }
}

fn up(member: u8) -> Row {
    Row {
        id: id(u32::from(member)),
        peer: at(member),
        state: RowState::Up,
    }
}

fn failed(member: u8, number: u64) -> Row {
    Row {
        id: id(u32::from(member)),
        peer: at(member),
        state: RowState::Failed(number),
    }
}
