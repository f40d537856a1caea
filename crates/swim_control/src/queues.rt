//! Connections that take turns.

ghost use Rattle.std.specs.Prelude.{◌≡◌, ◌⊎◌, ◌↔◌, ◌+◌, ◌-◌, ◌^◌, ◌≤◌, [], ◌∷◌, ◌++◌, IsTrue, MatchOption, IfSome};
ghost use Rattle.std.specs.Prelude.{length};
ghost use Rattle.std.specs.Bool.{MatchBool};
ghost use Rattle.swim_control.specs.Connections.{TakesTurn, newcomer};
ghost use Rattle.swim_control.specs.SideBySide.{Brought, AreHeard, HearsOn, HearsNewcomer};

use crate::connections::{Connection, Stand};
use crate::desks::Desk;
use std::alloc::Global;
use std::collections::VecDeque;
use std::marker::Model;
use std::sync::Wait;
use swim_text::{Polled, Sink};
use swim_trail::Trail;

/// How many connections are served at a time.
pub const MOST_CONNECTIONS: usize = 64;

/// Connections that take turns: the first has the next one, and is the last then. A contract sees their `Talks`, and
/// those of the connections that were closed.
#[derive(Drop)]
pub struct Connections<S: Polled + Drop, W: Sink + Drop> {
    queue: VecDeque<Connection<S, W>>,
    count: u64,
    closed: Trail<Connection<S, W>>,
}

impl<S: Polled + Drop, W: Sink + Drop> Model for Connections<S, W> {
    ghost use Rattle.std.specs.Prelude.{map};
    ghost use Rattle.swim_trail.specs.Noted.{value_in};
    ghost use Rattle.swim_control.specs.Talks.{Talks};

    ghost Value = { Talks };

    ghost view = { λ c. record { talks = c.queue.items; count = c.count; closed = map value_in c.closed.items } };
}

impl<S: Polled + Drop, W: Sink + Drop> Connections<S, W> {
    /// No connections.
    pub fn new(alloc: Global) -> Connections<S, W>
        ensures none { result ≡ record { talks = []; count = 0; closed = [] } }
        ensures heard { (b : Brought) → AreHeard b [] result }
    {
        Connections {
            queue: VecDeque::new(alloc),
            count: 0,
            closed: Trail::new(),
        }
    }

    /// How many there are.
    pub fn len(&self) -> usize
        ensures { result ≡ length self.now.talks }
    {
        self.queue.len()
    }

    /// Whether there are as many as may be.
    pub fn is_full(&self) -> bool
        ensures { IsTrue result ↔ ((64 ≤ length self.now.talks) ⊎ (self.now.count ≡ 2 ^ 64 - 1)) }
    {
        MOST_CONNECTIONS <= self.queue.len() || self.count == u64::MAX
    }

    /// Takes a connection in, as the last, that came at this moment. `false` where memory was refused, or there are as
    /// many as may be: it is closed then.
    pub fn add(&mut self, alloc: Global, reader: S, writer: W, now: u64) -> bool
        ensures heard { IsTrue result → HearsNewcomer self.old (S.left reader) (W.written writer) self.new }
        ensures comes { MatchBool result
            (self.new ≡ record {
              talks = self.old.talks
                  ++ newcomer self.old.count (S.left reader) (S.given reader) (W.written writer) now ∷ [];
              count = self.old.count + 1;
              closed = self.old.closed;
            })
            (self.new ≡ self.old) }
    {
        self.take_in(alloc, reader, writer, now)
    }

    /// Takes a connection in.
    fn take_in(&mut self, alloc: Global, reader: S, writer: W, now: u64) -> bool
        ensures { MatchBool result
            (self.new ≡ record {
              talks = self.old.talks
                  ++ newcomer self.old.count (S.left reader) (S.given reader) (W.written writer) now ∷ [];
              count = self.old.count + 1;
              closed = self.old.closed;
            })
            (self.new ≡ self.old) }
    {
        if self.is_full() {
            return false;
        }
        let Ok(reader) = Box::new(alloc, reader) else {
            return false;
        };
        let Ok(writer) = Box::new(alloc, writer) else {
            return false;
        };
        let connection = Connection::new(self.count, reader, writer, now);
        if self.queue.push_back(connection).is_err() {
            return false;
        }
        self.count += 1;
        true
    }

    /// The turn of the first connection, at this moment: how it stands then. `None` where there is no connection. The
    /// answers to each connection are those to its whole lines, in their order, whoever else has turns between them.
    pub fn turn<R: Wait, D: Desk>(
        &mut self,
        rt: &R,
        alloc: Global,
        now: u64,
        desk: &mut D,
    ) -> Option<Stand>
        ensures count { self.new.count ≡ self.old.count }
        ensures turn { MatchOption result
            ((self.old.talks ≡ []) × (self.new ≡ self.old) × (desk.new ≡ desk.old))
            (λ stand. TakesTurn D.asks now stand self.old self.new desk.old desk.new) }
        ensures heard { IfSome result (λ stand. HearsOn D.asks stand self.old self.new desk.old desk.new) }
    {
        self.take_turn(rt, alloc, now, desk)
    }

    /// The turn itself.
    fn take_turn<R: Wait, D: Desk>(
        &mut self,
        rt: &R,
        alloc: Global,
        now: u64,
        desk: &mut D,
    ) -> Option<Stand>
        ensures count { self.new.count ≡ self.old.count }
        ensures turn { MatchOption result
            ((self.old.talks ≡ []) × (self.new ≡ self.old) × (desk.new ≡ desk.old))
            (λ stand. TakesTurn D.asks now stand self.old self.new desk.old desk.new) }
    {
        let mut first = self.queue.pop_front()?;
        let stand = first.turn(rt, alloc, now, desk);
        match stand {
            Stand::Closed(_) => self.closed.note(&first, &[]),
            _ => self.queue.push_back_reserved(first),
        }
        Some(stand)
    }
}
