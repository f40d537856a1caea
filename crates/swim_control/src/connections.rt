//! A connection that is served beside others: it has its turns, and none of them waits.

ghost use Rattle.std.specs.Prelude.{◌≡◌, ◌↔◌, ◌⊎◌, ◌+◌, ◌<◌, ◌≤◌, [], IsTrue, box_value, Some, None, true};
ghost use Rattle.std.specs.Io.KnownBytes.{Keeps};
ghost use Rattle.swim_control.specs.Connections.{Hands, Turns, TurnsOnGiven, IsWaiting};

use crate::commands::LINE_BYTES;
use crate::desks::Desk;
use crate::serving::{READS, Served};
use crate::turns::meet;
use arrayvec::ArrayVec;
use std::alloc::Global;
use std::marker::Model;
use std::sync::Wait;
use swim_text::{Met, Polled, Sink, read_on};
use swim_trail::Remembered;

/// How many milliseconds a connection may send no whole line.
pub const MOST_SILENT_MS: u64 = 60_000;

/// How many milliseconds an answer may wait to be taken.
pub const MOST_UNTAKEN_MS: u64 = 1_000;

/// How many answers wait for each other before they are handed on.
const MOST_HELD: u32 = 15;

/// Why a connection is closed.
#[derive(Clone, Copy, Debug, PartialEq, Eq)]
pub enum Close {
    /// Serving it ended so, and its answers were taken.
    Served(Served),
    /// It sent no whole line for too long.
    Silent,
    /// It did not take its answers for too long.
    Untaken,
}

/// How a connection stands after its turn.
#[derive(Clone, Copy, Debug, PartialEq, Eq)]
pub enum Stand {
    /// Nothing came of it.
    Idle,
    /// Something did, and it goes on.
    Busy,
    /// Serving it has just ended so. It stays until its last answer is taken.
    Ended(Served),
    /// It is to be closed.
    Closed(Close),
}

/// A connection: where its lines come from, and where the answers go. A contract sees its `Talk`.
#[derive(Drop)]
pub(crate) struct Connection<S: Polled + Drop, W: Sink + Drop> {
    id: u64,
    reader: Box<S>,
    writer: Box<W>,
    came: Remembered<W>,
    line: ArrayVec<u8, LINE_BYTES>,
    reads: u32,
    since: u64,
    // How many answers were put since they were handed on last.
    held: u32,
    is_taken: bool,
    end: Option<Served>,
}

impl<S: Polled + Drop, W: Sink + Drop> Model for Connection<S, W> {
    ghost use Rattle.std.specs.Prelude.{box_value};
    ghost use Rattle.swim_control.specs.Talks.{Talk};

    ghost Value = { Talk };

    ghost view = { λ c. record {
      id = c.id;
      left = S.left (box_value c.reader);
      given = S.given (box_value c.reader);
      part = c.line.items;
      reads = c.reads;
      old = W.written c.came.value;
      written = W.written (box_value c.writer);
      since = c.since;
      is_taken = c.is_taken;
      end = c.end;
    } };
}

impl<S: Polled + Drop, W: Sink + Drop> Connection<S, W> {
    /// A connection of this number, that came at this moment.
    pub(crate) fn new(id: u64, reader: Box<S>, writer: Box<W>, now: u64) -> Connection<S, W>
        ensures { result ≡ record {
          id = id;
          left = S.left (box_value reader);
          given = S.given (box_value reader);
          part = [];
          reads = 1048576;
          old = W.written (box_value writer);
          written = W.written (box_value writer);
          since = now;
          is_taken = true;
          end = None;
        } }
    {
        let came = Remembered::of(&*writer);
        Connection {
            id,
            reader,
            writer,
            came,
            line: ArrayVec::new(),
            reads: READS,
            since: now,
            held: 0,
            is_taken: true,
            end: None,
        }
    }

    /// A turn at this moment: an answer that waits is handed on, or a line read on in and answered where it ended.
    #[tactic(auto, using(crate::proofs::Given::hands_given, crate::proofs::Given::closed_given, crate::proofs::Given::waits_given, crate::proofs::Given::answered_given))]
    pub(crate) fn turn<R: Wait, D: Desk>(
        &mut self,
        rt: &R,
        alloc: Global,
        now: u64,
        desk: &mut D,
    ) -> Stand
        ensures turns { Turns D.asks now result self.old self.new desk.old desk.new }
        ensures given { TurnsOnGiven D.asks now result self.old self.new desk.old desk.new }
    {
        if !self.is_taken {
            return self.hand_on(now);
        }
        if let Some(end) = self.end {
            return Stand::Closed(Close::Served(end));
        }
        match read_on(&mut *self.reader, &mut self.line, &mut self.reads) {
            Met::End(met) => {
                let end = meet(
                    rt,
                    alloc,
                    met,
                    self.line.as_slice(),
                    &mut *self.writer,
                    desk,
                );
                self.settle(now, end);
                match end {
                    Some(end) => Stand::Ended(end),
                    None => Stand::Busy,
                }
            }
            Met::Part => self.wait(now, Stand::Busy),
            Met::Nothing => self.wait(now, Stand::Idle),
        }
    }

    /// Goes on where no line has ended.
    fn wait(&mut self, now: u64, stand: Stand) -> Stand
        ensures sent { Keeps self.old.written self.new.written }
        ensures rest { self.new ≡ record self.old { written = self.new.written; is_taken = self.new.is_taken } }
        ensures stand { ((self.old.since + 60000 ≤ now) × (result ≡ Stand.Closed Close.Silent))
            ⊎ ((now < self.old.since + 60000) × (result ≡ stand)) }
    {
        if self.held > 0 {
            self.send();
        }
        if is_past(self.since, MOST_SILENT_MS, now) {
            Stand::Closed(Close::Silent)
        } else {
            stand
        }
    }

    /// Hands on an answer that waits.
    fn hand_on(&mut self, now: u64) -> Stand
        requires { IsWaiting self.old }
        ensures { Hands now result self.old self.new }
    {
        self.send();
        if self.is_taken {
            Stand::Busy
        } else if is_past(self.since, MOST_UNTAKEN_MS, now) {
            Stand::Closed(Close::Untaken)
        } else {
            Stand::Idle
        }
    }

    /// Hands on what was put, and sees whether it is taken.
    fn send(&mut self)
        ensures sent { Keeps self.old.written self.new.written }
        ensures rest { self.new ≡ record self.old { written = self.new.written; is_taken = self.new.is_taken } }
    {
        self.is_taken = self.writer.flush();
        self.held = 0;
    }

    /// Goes on behind a line that has ended and was answered. While more is ready, answers wait for each other, but for
    /// that to `list`, which is long.
    fn settle(&mut self, now: u64, end: Option<Served>)
        ensures sent { Keeps self.old.written self.new.written }
        ensures rest { self.new ≡ record self.old {
          part = [];
          written = self.new.written;
          since = now;
          is_taken = self.new.is_taken;
          end = end;
        } }
    {
        let is_short = self.line.as_slice() != b"list".as_slice();
        let is_more = end.is_none() && !self.reader.ready().is_empty();
        self.line.clear();
        self.since = now;
        self.end = end;
        if is_short && is_more && self.held < MOST_HELD {
            self.held += 1;
        } else {
            self.send();
        }
    }
}

/// Whether so much time went by since then.
fn is_past(since: u64, time: u64, now: u64) -> bool
    ensures { IsTrue result ↔ (since + time ≤ now) }
{
    since <= now && time <= now - since
}
