//! An operator who adds a member and removes one, each at a moment.

ghost use Rattle.std.specs.Prelude.{None};

use super::gates::{NotingReader, pause};
use super::readers::{Moment, Seen, Who};
use std::alloc::Global;
use std::rt::Clock;
use std::sync::Wait;
use swim_desk::{Door, Knock};
use swim_text::{Byte, Look, Page, Polled, Source};

/// The lines of the operator: that member 3 joins, and that member 2 is removed.
#[derive(Drop)]
pub struct Lines<'s> {
    joins: Moment<'s>,
    removes: Moment<'s>,
    ready: &'static [u8],
    given: u32,
}

impl<'s> Lines<'s> {
    /// The first line comes when the early one was sent so many bytes, the second when the late one was.
    pub fn new(seen: &'s Seen, joins: usize, removes: usize) -> Lines<'s> {
        Lines {
            joins: Moment::of(seen, Who::Early, joins),
            removes: Moment::of(seen, Who::Late, removes),
            ready: b"",
            given: 0,
        }
    }
}

impl<'s> Source for Lines<'s> {
    ghost left = { λ lines. None };

    ghost ready = { λ lines. lines.ready.now };

    ghost given = { λ lines. None };

    ghost failures = { λ lines. 0 };

    fn byte(&mut self) -> Byte {
        match self.ready.split_first() {
            Some((byte, rest)) => {
                self.ready = rest;
                Byte::One(*byte)
            }
            None => Byte::End,
        }
    }

    fn ready(&self) -> &[u8] {
        self.ready
    }

    fn skip(&mut self, count: usize) {
        self.ready = &self.ready[count..];
    }
}

impl<'s> Polled for Lines<'s> {
    fn look(&mut self) -> Look {
        if self.given == 0 && self.joins.is_here() {
            self.given = 1;
            self.ready = b"join 3 10.0.0.3:7000\n";
            return Look::Ready;
        }
        if self.given == 1 && self.removes.is_here() {
            self.given = 2;
            self.ready = b"remove 2\n";
            return Look::Ready;
        }
        Look::Nothing
    }
}

/// A door to which the operator comes.
#[derive(Drop)]
pub struct OneOperator<'s, K: Clock + Drop> {
    clock: K,
    alloc: Global,
    lines: Option<Lines<'s>>,
}

impl<'s, K: Clock + Drop> OneOperator<'s, K> {
    pub fn new(clock: K, alloc: Global, lines: Lines<'s>) -> OneOperator<'s, K> {
        OneOperator {
            clock,
            alloc,
            lines: Some(lines),
        }
    }
}

impl<'s, K: Clock + Drop> Door for OneOperator<'s, K> {
    ghost faults = { λ door. None };

    type Reader = NotingReader<Lines<'s>>;

    type Writer = Page;

    fn next<R: Wait>(&mut self, _rt: &R) -> Knock<NotingReader<Lines<'s>>, Page> {
        match self.lines.take() {
            Some(lines) => Knock::Conn(NotingReader::over(lines), Page::new(self.alloc)),
            None => Knock::Idle,
        }
    }

    fn wait<R: Wait>(&mut self, _rt: &R) {
        pause(&self.clock);
    }

    fn now(&mut self) -> u64 {
        0
    }
}
