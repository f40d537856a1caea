//! A member that comes back: it is judged, knocked at, and joined again when it answers.

ghost use Rattle.std.specs.Prelude.{None};
ghost use Rattle.swim_work.specs.Gates.{FitsInto};

use super::*;
use std::sync::atomic::AtomicU32;
use swim_history::RowState;

/// An ack of member 2 for member 1, number 0.
const ACK: [u8; 24] = [
    0x53, 0x57, 1, 3, 0, 0, 0, 2, 0, 0, 0, 1, 0, 0, 0, 2, 0, 0, 0, 0, 0, 0, 0, 0,
];

/// With so many ticks member 2 is knocked at once, with this number; and before the last so many of them it is ruled
/// that each start has a knock.
#[derive(Clone, Copy)]
struct Knocked {
    ticks: u32,
    ruled: u32,
    number: u8,
}

// How many pings were sent, and whether the ack was heard.
#[derive(Drop)]
struct Visit {
    pings: AtomicU32,
    is_heard: AtomicBool,
}

impl Visit {
    fn new() -> Visit {
        Visit {
            pings: AtomicU32::new(0),
            is_heard: AtomicBool::new(false),
        }
    }
}

// A post that counts the pings.
#[derive(Drop)]
struct CountingPost<'s> {
    visit: &'s Visit,
}

impl<'s> Post for CountingPost<'s> {
    ghost posted = { λ post. None };

    fn fresh(&self) -> CountingPost<'s> {
        CountingPost { visit: self.visit }
    }

    fn send<R: Wait>(&mut self, _rt: &R, bytes: &[u8], _to: Peer) -> bool {
        if bytes.get(3) == Some(&1) {
            self.visit.pings.fetch_add(1, Ordering::SeqCst);
        }
        true
    }
}

// A line that gives the ack with that number after the second ping, and tells when it is asked again.
#[derive(Drop)]
struct AckLine<'s, K: Clock + Drop> {
    clock: K,
    visit: &'s Visit,
    number: u8,
    was_given: bool,
}

impl<'s, K: Clock + Drop> Line for AckLine<'s, K> {
    ghost received = { λ line. None };

    ghost listed = { λ line. None };

    fn receive<R: Wait>(&mut self, _rt: &R, bytes: &mut [u8]) -> Got
        ensures { FitsInto result bytes.new }
    {
        pause(&self.clock);
        if self.was_given {
            set(&self.visit.is_heard);
            return Got::Idle;
        }
        if self.visit.pings.load(Ordering::SeqCst) < 2 {
            return Got::Idle;
        }
        self.was_given = true;
        match bytes.get_mut(..24) {
            Some(front) => {
                let mut ack = ACK;
                ack[23] = self.number;
                front.copy_from_slice(&ack);
                Got::Datagram(24, at(2))
            }
            None => Got::Fault,
        }
    }

    fn list(&mut self, _members: &[Peer]) {}
}

// So many ticks, with a rule before the last few, and a stop once the ack was heard.
#[derive(Drop)]
struct KnockPace<'s, K: Clock + Drop> {
    clock: K,
    visit: &'s Visit,
    board: &'s TidingsBoard,
    ticks: u32,
    ruled: u32,
    turns: u32,
}

impl<'s, K: Clock + Drop> Pace for KnockPace<'s, K> {
    ghost beats = { λ pace. None };

    fn next<R: Wait>(&mut self, _rt: &R) -> Beat {
        if self.ticks > 0 {
            if self.ticks == self.ruled {
                self.board.rule(1);
            }
            self.ticks -= 1;
            return Beat::Tick;
        }
        pause(&self.clock);
        self.turns = self.turns.saturating_add(1);
        if is_set(&self.visit.is_heard) || self.turns > TURNS {
            return Beat::Stop;
        }
        Beat::Idle
    }
}

// The second period starts with the fourth tick, and so does the knock.
#[test]
fn who_answers_a_knock_is_joined_again(rt: HostRuntime) -> Result<(), Fail> {
    let visit = Visit::new();
    let board = TidingsBoard::new(0, 1);
    let knocked = Knocked {
        ticks: 4,
        ruled: 0,
        number: 2,
    };
    assert_joined_again(rt, rt.alloc(), &board, &visit, knocked)
}

// The rule of 0 is changed behind the fourth tick, after member 2 was judged; the third period starts with the seventh.
#[test]
fn a_rule_that_changes_brings_a_member_back(rt: HostRuntime) -> Result<(), Fail> {
    let visit = Visit::new();
    let board = TidingsBoard::new(0, 0);
    let knocked = Knocked {
        ticks: 7,
        ruled: 3,
        number: 3,
    };
    assert_joined_again(rt, rt.alloc(), &board, &visit, knocked)
}

// A life of member 1, which knows member 2, in which it knocks as the board says.
fn assert_joined_again<'s, R: Threads + Wait + Clock + Abort + Send + Sync + Copy + Drop>(
    rt: R,
    alloc: Global,
    board: &'s TidingsBoard,
    visit: &'s Visit,
    knocked: Knocked,
) -> Result<(), Fail> {
    let line = AckLine {
        clock: rt,
        visit,
        number: knocked.number,
        was_given: false,
    };
    let post = CountingPost { visit };
    let pace = KnockPace {
        clock: rt,
        visit,
        board,
        ticks: knocked.ticks,
        ruled: knocked.ruled,
        turns: 0,
    };
    let door = NoDoor { clock: rt };
    let gates = (line, post, pace, door);
    let opening = pair()?;
    let crew = crew(alloc, &opening, board, gates)?;
    let (past, crew) = live(&rt, alloc, opening, chooser(), 1000, crew);
    let Ok(past) = past else {
        return Err(Fail::new("a life"));
    };
    assert_same(&rt, &past.journal.judged_count(), &1);
    match past.journal.row(id(2)) {
        Some(row) => assert!(rt; row.state == RowState::Up),
        None => panic!(rt; "a row of member 2"),
    }
    assert_same(&rt, &crew.second.knocks, &1);
    assert_same(&rt, &crew.first.returning.rejoins(), &1);
    Ok(())
}
