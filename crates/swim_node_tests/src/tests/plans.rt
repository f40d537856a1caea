//! What is asked of a node whose calls may be refused memory, as data, with what has to come of it.

use super::*;
use arrayvec::ArrayVec;
use swim_history::{DropReason, Entry, Relay};

/// What a node is asked, and what it comes to.
#[derive(Clone, Copy)]
pub(crate) struct Plan<'a> {
    /// How many entries its journal may have.
    pub limit: u32,
    /// How many it has in the end.
    pub entries: u32,
    /// What the third seat is answered, first of all.
    pub changing: &'a [Kept],
    /// What the first seat is answered then.
    pub listening: &'a [Kept],
    /// The first seat's calls that meet a full journal then.
    pub full: &'a [Call],
    /// The members in the end.
    pub rows: &'a [Row],
}

fn kept(position: u32, number: u32, call: Call, reply: Reply) -> Kept {
    Kept {
        position,
        number,
        call,
        reply,
    }
}

/// Whether two answered calls are the same.
pub(crate) fn is_same(kept: &Kept, other: &Kept) -> bool {
    (kept.position, kept.number) == (other.position, other.number)
        && kept.call == other.call
        && kept.reply == other.reply
}

fn started(judged: Option<Id>, target: u8, number: u64) -> Reply {
    let probe = Probe {
        target: id(u32::from(target)),
        peer: at(target),
        number,
    };
    Reply::Started {
        judged,
        probe: Some(probe),
    }
}

fn asked_of(target: u8, number: u64, relay: u8) -> Reply {
    let mut relays = ArrayVec::new();
    let _ = relays.try_push(Relay {
        id: id(u32::from(relay)),
        peer: at(relay),
    });
    Reply::Asked {
        target: id(u32::from(target)),
        peer: at(target),
        number,
        relays,
    }
}

pub(crate) fn failed(member: u8, number: u64) -> Row {
    Row {
        id: id(u32::from(member)),
        peer: at(member),
        state: RowState::Failed(number),
    }
}

/// Member 2 is probed, member 3 is asked, nobody answers, and member 2 is judged.
pub(crate) fn four_ticks() -> [Kept; 4] {
    [
        kept(0, 0, Call::Tick, started(None, 2, 1)),
        kept(1, 1, Call::Tick, asked_of(2, 1, 3)),
        kept(2, 2, Call::Tick, Reply::Quiet),
        kept(3, 3, Call::Tick, started(Some(id(2)), 3, 2)),
    ]
}

// A message of a member about the probe of member 3 by member 2.
fn heard(kind: Kind, from: u8) -> Call {
    Call::Hear(at(from), message(kind, 2, 3, 9))
}

// What member 1 sends for that probe.
fn sent(kind: Kind, to: u8) -> Reply {
    let message = Message {
        version: Version::One,
        kind,
        sender: id(1),
        initiator: id(2),
        target: id(3),
        number: PeriodNumber::new(9).unwrap_or_default(),
        at: None,
    };
    Reply::Send {
        peer: at(to),
        message,
    }
}

/// A request of member 2 to ping member 3 is served, the ack is forwarded once, and the second one is dropped.
pub(crate) fn relayed_ack() -> [Kept; 3] {
    let dropped = Reply::Dropped(DropReason::NoRequest);
    [
        kept(0, 0, heard(Kind::PingReq, 2), sent(Kind::Ping, 3)),
        kept(1, 1, heard(Kind::Ack, 3), sent(Kind::Ack, 2)),
        kept(2, 2, heard(Kind::Ack, 3), dropped),
    ]
}

/// Member 5 joins last.
pub(crate) fn join_of_5() -> Kept {
    let joined = Reply::Joined { place: 2 };
    kept(0, 0, Call::Join(id(5), at(5)), joined)
}

pub(crate) fn removal_of_2() -> Kept {
    kept(0, 0, Call::Remove(id(2)), Reply::Removed)
}

/// The first tick of the first seat, behind one change, which probes this member.
pub(crate) fn probe_after_change(target: u8) -> Kept {
    kept(1, 0, Call::Tick, started(None, target, 1))
}

/// One call of each kind.
pub(crate) fn each_call() -> [Call; 4] {
    let ping = message(Kind::Ping, 2, 1, 5);
    [
        Call::Tick,
        Call::Hear(at(2), ping),
        Call::Join(id(4), at(4)),
        Call::Remove(id(2)),
    ]
}

/// The journal has the entries of the plan and no more, and its table is that of the plan.
pub(crate) fn assert_journal<R: Abort>(rt: &R, journal: &Journal, plan: &Plan) {
    assert_same(rt, &journal.len(), &plan.entries);
    assert_same(rt, &journal.rows().as_slice(), &plan.rows);
    assert_entries(rt, journal, 2, plan.changing);
    assert_entries(rt, journal, 0, plan.listening);
}

fn assert_entries<R: Abort>(rt: &R, journal: &Journal, seat: u8, calls: &[Kept]) {
    for wanted in calls {
        match journal.entry(wanted.position) {
            Some(entry) => assert_entry(rt, &entry, seat, wanted),
            None => panic!(rt; "an entry"),
        }
    }
}

fn assert_entry<R: Abort>(rt: &R, entry: &Entry, seat: u8, wanted: &Kept) {
    assert_same(rt, &(entry.seat, entry.number), &(seat, wanted.number));
    assert_same(rt, &entry.call, &wanted.call);
    assert_same(rt, &entry.reply, &wanted.reply);
}
