//! A desk of a small group, and runs of connections to it.

use super::assert_same;
use std::alloc::Global;
use std::process::Abort;
use std::sync::Wait;
use std::test::*;
use swim_control::{Answer, Desk, ReloadText, Served, StatsText, serve};
use swim_doubles::Text;
use swim_history::{Gap, Row, RowState, Table};
use swim_text::{Page, ReadSource, Sink, Source};
use swim_wire::{Id, Peer};

/// A desk that holds a member table, and no detector. Member 3 has a gap. So many joins and removals meet room in the
/// journal; the one before which so many others stand is refused for memory.
#[derive(Drop)]
pub struct Group {
    rows: Table,
    is_closed: bool,
    room: u32,
    memory_fails_in: u32,
}

impl Group {
    /// Members 2 and 3.
    pub fn of_two() -> Group {
        let rows = Table::new();
        let rows = with_member(rows, 2, b"10.0.0.2:7000");
        let rows = with_member(rows, 3, b"10.0.0.3:7000");
        Group {
            rows,
            is_closed: false,
            room: 1000,
            memory_fails_in: 1000,
        }
    }

    /// The same, closed.
    pub fn closed() -> Group {
        let mut group = Group::of_two();
        group.is_closed = true;
        group
    }

    /// The same, with room for so many calls.
    pub fn with_room(room: u32) -> Group {
        let mut group = Group::of_two();
        group.room = room;
        group
    }

    /// The same, where memory is refused to one call.
    pub fn with_memory_for(calls: u32) -> Group {
        let mut group = Group::of_two();
        group.memory_fails_in = calls;
        group
    }

    /// Why a call gets no reply.
    fn fault(&mut self) -> Option<Answer> {
        if self.room == 0 {
            return Some(Answer::JournalFull);
        }
        if self.memory_fails_in == 0 {
            self.memory_fails_in = 1000;
            return Some(Answer::NoMemory);
        }
        self.room -= 1;
        self.memory_fails_in -= 1;
        None
    }
}

/// The rows with one more at their end.
fn with_member(mut rows: Table, id: u32, address: &[u8]) -> Table {
    if let (Some(id), Some(peer)) = (Id::new(id), Peer::read(address)) {
        let state = RowState::Up;
        let _ = rows.try_push(Row { id, peer, state });
    }
    rows
}

/// The rows without those of a member.
fn without(rows: &[Row], id: Option<Id>) -> Table {
    let mut others = Table::new();
    for row in rows {
        if Some(row.id) != id {
            let _ = others.try_push(*row);
        }
    }
    others
}

impl Desk for Group {
    ghost asks = { λ old command told new. Unit {0} };

    fn list<R: Wait>(&mut self, _rt: &R) -> Option<Table> {
        if self.is_closed {
            return None;
        }
        Some(without(self.rows.as_slice(), None))
    }

    fn join<R: Wait>(&mut self, _rt: &R, _alloc: Global, id: Id, peer: Peer) -> Answer {
        if let Some(fault) = self.fault() {
            return fault;
        }
        if id.get() == 1 {
            return Answer::Refused(1);
        }
        let others = without(self.rows.as_slice(), Some(id));
        if others.len() < self.rows.len() {
            return Answer::Refused(2);
        }
        let place = u32::try_from(self.rows.len()).unwrap_or(0);
        let state = RowState::Up;
        if self.rows.try_push(Row { id, peer, state }).is_err() {
            return Answer::Refused(3);
        }
        Answer::Joined(place)
    }

    fn remove<R: Wait>(&mut self, _rt: &R, _alloc: Global, id: Id) -> Answer {
        if let Some(fault) = self.fault() {
            return fault;
        }
        if id.get() == 1 {
            return Answer::Refused(1);
        }
        let others = without(self.rows.as_slice(), Some(id));
        if others.len() == self.rows.len() {
            return Answer::Refused(4);
        }
        self.rows = others;
        Answer::Removed
    }

    fn gap<R: Wait>(&mut self, _rt: &R, id: Id) -> Option<Gap> {
        if id.get() == 3 {
            Some(Gap { a: 2, b: 4, n: 3 })
        } else {
            None
        }
    }

    fn stats<R: Wait>(&mut self, _rt: &R) -> StatsText {
        let mut text = StatsText::new();
        let _is_added = text.try_extend_from_slice(b"swimd_ticks_total 5\n.\n");
        text
    }

    fn reload<R: Wait>(&mut self, _rt: &R) -> ReloadText {
        let mut text = ReloadText::new();
        let _is_added = text.try_extend_from_slice(b"reloaded\n");
        text
    }
}

/// A text whose lines come one after another is answered so, and serving it ends so.
pub fn assert_lines<R: Wait + Abort>(
    rt: &R,
    alloc: Global,
    group: &mut Group,
    text: &[u8],
    answers: &[u8],
    end: Served,
) {
    assert_served(rt, alloc, group, &mut Text::new(text), answers, end);
}

/// The same, of a text whose bytes come one by one.
pub fn assert_bytes<R: Wait + Abort>(
    rt: &R,
    alloc: Global,
    group: &mut Group,
    text: &[u8],
    answers: &[u8],
    end: Served,
) {
    let mut source = Text::failing_after(text, u32::MAX);
    assert_served(rt, alloc, group, &mut source, answers, end);
}

/// The same, of a text that comes at once.
pub fn assert_at_once<R: Wait + Abort>(
    rt: &R,
    alloc: Global,
    group: &mut Group,
    text: &[u8],
    answers: &[u8],
    end: Served,
) {
    assert_served(rt, alloc, group, &mut ReadSource::new(text), answers, end);
}

/// How serving what a source gives ends, by a group of members 2 and 3.
pub fn serve_two<S: Source, W: Sink, R: Wait>(
    rt: &R,
    alloc: Global,
    source: &mut S,
    page: &mut W,
) -> Served {
    serve(rt, alloc, source, page, &mut Group::of_two())
}

/// What a source gives is answered so, and serving it ends so.
pub fn assert_served<S: Source, R: Wait + Abort>(
    rt: &R,
    alloc: Global,
    group: &mut Group,
    source: &mut S,
    answers: &[u8],
    end: Served,
) {
    let mut page = Page::new(alloc);
    assert_same(rt, &serve(rt, alloc, source, &mut page, group), &end);
    assert_same(rt, &page.text(), &answers);
}
