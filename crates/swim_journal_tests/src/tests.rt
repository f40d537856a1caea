mod comments;

ghost use Rattle.std.specs.Prelude.{◌≡◌, List};
ghost use Rattle.swim_history.specs.declared.entries.Entry.{Entry};

use std::alloc::Global;
use std::marker::Brand;
use std::process::Abort;
use std::sync::Wait;
use std::test::*;
use swim_doubles::Text;
use swim_history::Opening;
use swim_journal::*;
use swim_node::{CallFault, Follower, Naming, Node, Parts, Seat};
use swim_script::{Session, run};
use swim_targets::Seeded;
use swim_text::Page;
use swim_wire::{Id, Kind, Message, Peer, PeriodNumber, Version, encode};

// Member 1 knows member 2, and member 3, which failed in period 4 of 9. It has a timeout of one tick and a period of
// three, and draws from life 5 of a seed of sevens.
const HEADER: &[u8] =
    b"journal 1\nopen 1 1 1 3 9 2000\nrow 2 10.0.0.2:7000\nrow 3 10.0.0.3:7000 failed 4\n\
    seed 0707070707070707070707070707070707070707070707070707070707070707 5\n";

// Member 2 pings, is probed, and is removed, so that nobody is asked to ping it; it can't be removed again, and joins.
const WORKED: &[u8] =
    b"hear 10.0.0.2:7000 535701010000000200000002000000010000000000000001\n= 0 sent\n\
    tick\n= 1 started judged - probe 2 10\n\
    remove 2\n= 2 removed\n\
    tick\n= 3 quiet\n\
    remove 2\n= 4 refused 4\n\
    join 2 10.0.0.2:7000\n= 5 joined 0\n";

fn id(number: u32) -> Id {
    Id::new(number).unwrap_or_default()
}

fn at(last: u8) -> Peer {
    Peer {
        ip: [10, 0, 0, last],
        port: 7000,
    }
}

fn opening() -> Result<Opening, Fail> {
    let members = [(id(2), at(2)), (id(3), at(3))];
    let opening = Opening::check(id(1), 1, 1, 3, &members, 9, Version::One).map_err(
        |_| "an opening",
    )?;
    Ok(opening.with_failed(id(3), 4).ok_or("a period 4 was used")?)
}

fn header(alloc: Global) -> Result<Page, Fail> {
    let mut page = Page::new(alloc);
    if !put_header(&mut page, &opening()?, 2000, &[7; 32], 5) {
        return Err(Fail::new("a header"));
    }
    Ok(page)
}

// Calls that are written behind a header while a node runs are those that were made, and are played without a
// difference.
#[test]
fn what_is_written_is_played(rt: HostRuntime) -> Result<(), Fail> {
    let alloc = rt.alloc();
    let page = header(alloc)?;
    let opening = opening()?;
    let parts = Parts::make(alloc, 2000)?;
    let page = write_calls::<Brand, _>(rt, alloc, parts, opening, page)?;
    assert_written(&rt, page.text());
    assert_played(&rt, alloc, page.text());
    Ok(())
}

fn assert_written<R: Abort>(rt: &R, text: &[u8]) {
    match text.strip_prefix(HEADER) {
        Some(calls) => assert!(rt; calls.starts_with(WORKED)),
        None => panic!(rt; "the header"),
    }
}

fn assert_played<R: Abort>(rt: &R, alloc: Global, text: &[u8]) {
    let mut session = Session::new(alloc);
    let mut output = Page::new(alloc);
    let is_played = run(&mut session, &mut Text::new(text), &mut output).is_ok();
    drop(output);
    let journal = session.into_journal();
    assert!(rt; is_played);
    assert_eq!(rt; journal.map(|journal| journal.len()), Some(1506));
}

// Three of a node's seats.
fn callers_of<N: Naming>(seats: [Seat<N>; 4]) -> (Seat<N>, Seat<N>, Seat<N>) {
    let [first, second, third, fourth] = seats;
    drop(fourth);
    (first, second, third)
}

fn write_calls<N: Naming, R: Wait + Abort + Copy + Drop>(
    rt: R,
    alloc: Global,
    parts: Parts,
    opening: Opening,
    page: Page,
) -> Result<Page, Fail>
    requires parts { parts ≡ record { limit = N.limit; ledgers = N.ledgers; log = N.log; cells = N.cells } }
    requires opening { opening ≡ N.opening }
    requires limit { N.limit ≡ 2000 }
    requires drawn { (h : List Entry) → N.drawn h }
{
    let chooser = Seeded::life([7; 32], 5);
    match Node::<N, Seeded, R>::open(alloc, rt, parts, opening, chooser, 2000) {
        Ok(opened) => {
            let (node, seats, viewers) = opened;
            drop(viewers);
            Ok(written(&rt, alloc, &node, callers_of(seats), page))
        }
        Err(_) => Err(Fail::new("a node")),
    }
}

// The text of 1,506 calls, which are written down in two goes.
fn written<N: Naming, R: Wait + Abort + Copy + Drop>(
    rt: &R,
    alloc: Global,
    node: &Node<N, Seeded, R>,
    callers: (Seat<N>, Seat<N>, Seat<N>),
    page: Page,
) -> Page {
    let (mut hears, mut ticks, mut changes) = callers;
    let (mut follower, mut page) = (node.follower(alloc), page);
    assert!(rt; make_calls(rt, node, &mut hears, &mut ticks, &mut changes).is_ok());
    assert_eq!(rt; write_on(rt, node, &mut follower, &mut page), 6);
    assert!(rt; tick_often(rt, node, &mut ticks).is_ok());
    assert_eq!(rt; write_on(rt, node, &mut follower, &mut page), 1500);
    assert_eq!(rt; follower.len(), 1506);
    page
}

// Writes what was added to the journal, as far as the page takes it, and answers how many calls those were.
fn write_on<N: Naming, R: Wait + Copy + Drop>(
    rt: &R,
    node: &Node<N, Seeded, R>,
    follower: &mut Follower<N>,
    page: &mut Page,
) -> u32 {
    for count in 0..2000 {
        match node.follow(rt, follower) {
            Some(next) if put_kept(page, &next.kept) => {}
            _ => return count,
        }
    }
    2000
}

// The calls of `WORKED`, by three seats.
fn make_calls<N: Naming, R: Wait + Copy + Drop>(
    rt: &R,
    node: &Node<N, Seeded, R>,
    hears: &mut Seat<N>,
    ticks: &mut Seat<N>,
    changes: &mut Seat<N>,
) -> Result<(), CallFault> {
    let ping = Message {
        version: Version::One,
        kind: Kind::Ping,
        sender: id(2),
        initiator: id(2),
        target: id(1),
        number: PeriodNumber::new(1).unwrap_or_default(),
        at: None,
    };
    drop(node.hear(rt, hears, encode(&ping).as_slice(), at(2))?);
    drop(node.tick(rt, ticks)?);
    drop(node.remove(rt, changes, id(2))?);
    drop(node.tick(rt, ticks)?);
    drop(node.remove(rt, changes, id(2))?);
    drop(node.join(rt, changes, id(2), at(2))?);
    Ok(())
}

fn tick_often<N: Naming, R: Wait + Copy + Drop>(
    rt: &R,
    node: &Node<N, Seeded, R>,
    ticks: &mut Seat<N>,
) -> Result<(), CallFault> {
    for _ in 0..1500 {
        drop(node.tick(rt, ticks)?);
    }
    Ok(())
}
