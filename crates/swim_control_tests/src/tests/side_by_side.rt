//! Connections that take turns.

ghost use Rattle.std.specs.Prelude.{None, length};

use super::assert_same;
use super::groups::Group;
use arrayvec::ArrayVec;
use std::alloc::Global;
use std::cell::{Cell, RefCell};
use std::process::Abort;
use std::sync::Wait;
use std::test::*;
use swim_control::{Close, Connections, MOST_CONNECTIONS, Served, Stand};
use swim_doubles::Text;
use swim_text::Sink;

/// What the clients of a test see: all answers, in the order in which they were handed on.
#[derive(Drop)]
struct Seen {
    text: RefCell<ArrayVec<u8, 256>>,
    takes: Cell<bool>,
}

impl Seen {
    fn new(takes: bool) -> Seen {
        Seen {
            text: RefCell::new(ArrayVec::new()),
            takes: Cell::new(takes),
        }
    }

    fn is(&self, text: &[u8]) -> bool {
        match self.text.try_borrow() {
            Ok(seen) => *seen.as_slice() == *text,
            Err(_) => false,
        }
    }
}

/// A client's end: it shows its name before each answer, where answers are taken.
#[derive(Drop)]
struct Client<'s> {
    name: u8,
    seen: &'s Seen,
    held: ArrayVec<u8, 128>,
    failures: u64,
}

fn client_of<'s>(name: u8, seen: &'s Seen) -> Client<'s> {
    Client {
        name,
        seen,
        held: ArrayVec::new(),
        failures: 0,
    }
}

impl<'s> Sink for Client<'s> {
    ghost written = { λ client. None };

    ghost failures = { λ client. client.failures };

    ghost held = { λ client. length client.held.items };

    fn put(&mut self, text: &[u8]) -> bool {
        let _ = self.held.try_extend_from_slice(text);
        true
    }

    fn flush(&mut self) -> bool {
        if !self.seen.takes.get() && !self.held.is_empty() {
            self.failures = self.failures.saturating_add(1);
            return false;
        }
        if let Ok(mut seen) = self.seen.text.try_borrow_mut() {
            if !self.held.is_empty() {
                let _ = seen.try_push(self.name);
                let _ = seen.try_extend_from_slice(self.held.as_slice());
            }
        }
        self.held.clear();
        true
    }
}

type Clients<'s> = Connections<Text<'s>, Client<'s>>;

// A client of this text comes then.
fn add<'s, R: Abort>(
    rt: &R,
    alloc: Global,
    clients: &mut Clients<'s>,
    text: Text<'s>,
    client: Client<'s>,
    now: u64,
) {
    assert!(rt; clients.add(alloc, text, client, now));
}

// Who has the next turn stands so then.
fn assert_turn<R: Wait + Abort>(
    rt: &R,
    alloc: Global,
    clients: &mut Clients<'_>,
    group: &mut Group,
    now: u64,
    stand: Option<Stand>,
) {
    assert_same(rt, &clients.turn(rt, alloc, now, group), &stand);
}

// How serving one of them ends, in the first twenty turns.
fn first_end<R: Wait + Abort>(
    rt: &R,
    alloc: Global,
    clients: &mut Clients<'_>,
    group: &mut Group,
) -> Option<Served> {
    for _turn in 0..20 {
        if let Some(Stand::Ended(served)) = clients.turn(rt, alloc, 1, group) {
            return Some(served);
        }
    }
    None
}

// Two clients, each of which is answered in its turn; the second stops the daemon, while the first is within a line.
#[test]
fn each_in_its_turn(rt: HostRuntime) {
    let seen = Seen::new(true);
    let mut group = Group::of_two();
    let mut clients = Connections::new(rt.alloc());
    let text = Text::new(b"gap 9\nList\nli");
    add(
        &rt,
        rt.alloc(),
        &mut clients,
        text,
        client_of(b'1', &seen),
        0,
    );
    let text = Text::new(b"remove 9\nstop\n");
    add(
        &rt,
        rt.alloc(),
        &mut clients,
        text,
        client_of(b'2', &seen),
        0,
    );
    let end = first_end(&rt, rt.alloc(), &mut clients, &mut group);
    assert_same(&rt, &end, &Some(Served::Stopped));
    assert_same(&rt, &clients.len(), &2);
    assert!(rt; seen.is(b"1gap none\n2refused 4\n1fault 2\n2stopping\n"));
}

// A client that sends no whole line is closed after a minute, and not before.
#[test]
fn a_minute_of_silence(rt: HostRuntime) {
    let seen = Seen::new(true);
    let mut group = Group::of_two();
    let mut clients = Connections::new(rt.alloc());
    // A text of which a read will fail is one of which nothing comes until then.
    let text = Text::failing_after(b"list\n", 1_000);
    add(
        &rt,
        rt.alloc(),
        &mut clients,
        text,
        client_of(b'1', &seen),
        5,
    );
    for now in [5, 60_004] {
        assert_turn(
            &rt,
            rt.alloc(),
            &mut clients,
            &mut group,
            now,
            Some(Stand::Idle),
        );
    }
    let silent = Some(Stand::Closed(Close::Silent));
    assert_turn(&rt, rt.alloc(), &mut clients, &mut group, 60_005, silent);
    assert_same(&rt, &clients.len(), &0);
    assert_turn(&rt, rt.alloc(), &mut clients, &mut group, 60_006, None);
}

// Whether one of nine turns closes a connection whose answer isn't taken.
fn closes_untaken<R: Wait + Abort>(
    rt: &R,
    alloc: Global,
    clients: &mut Clients<'_>,
    group: &mut Group,
    now: u64,
) -> bool {
    let mut is_closed = false;
    for _turn in 0..9 {
        if let Some(Stand::Closed(Close::Untaken)) = clients.turn(rt, alloc, now, group) {
            is_closed = true;
        }
    }
    is_closed
}

// An answer that isn't taken within a second closes its connection; one that is taken in time doesn't.
#[test]
fn a_second_for_an_answer(rt: HostRuntime) {
    let seen = Seen::new(false);
    let mut group = Group::of_two();
    let mut clients = Connections::new(rt.alloc());
    add(
        &rt,
        rt.alloc(),
        &mut clients,
        Text::new(b"gap 9\n"),
        client_of(b'1', &seen),
        0,
    );
    for (now, stand) in [(7, Stand::Busy), (7, Stand::Busy), (1_006, Stand::Idle)] {
        assert_turn(&rt, rt.alloc(), &mut clients, &mut group, now, Some(stand));
    }
    seen.takes.set(true);
    assert_turn(
        &rt,
        rt.alloc(),
        &mut clients,
        &mut group,
        1_006,
        Some(Stand::Busy),
    );
    assert!(rt; seen.is(b"1gap none\n"));
    seen.takes.set(false);
    add(
        &rt,
        rt.alloc(),
        &mut clients,
        Text::new(b"gap 9\n"),
        client_of(b'2', &seen),
        0,
    );
    assert!(rt; !closes_untaken(&rt, rt.alloc(), &mut clients, &mut group, 2_000));
    assert!(rt; closes_untaken(&rt, rt.alloc(), &mut clients, &mut group, 3_000));
}

// There are as many places as there are, and no more.
#[test]
fn as_many_as_may_be(rt: HostRuntime) {
    let seen = Seen::new(true);
    let mut clients = Connections::new(rt.alloc());
    for _place in 0..MOST_CONNECTIONS {
        add(
            &rt,
            rt.alloc(),
            &mut clients,
            Text::new(b""),
            client_of(b'1', &seen),
            0,
        );
    }
    assert!(rt; clients.is_full());
    let one_more = client_of(b'1', &seen);
    assert!(rt; !clients.add(rt.alloc(), Text::new(b""), one_more, 0));
    assert_same(&rt, &clients.len(), &MOST_CONNECTIONS);
}
