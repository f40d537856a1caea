//! A line with a ping.

ghost use Rattle.std.specs.Prelude.{◌≡◌, None};
ghost use Rattle.swim_work.specs.Gates.{FitsInto};

use super::signals::{Failing, Signals, TURNS, is_set, pause, set};
use crate::tests::members::at;
use std::rt::Clock;
use std::sync::Wait;
use std::sync::atomic::Ordering;
use swim_wire::Peer;
use swim_work::{Got, Line};

/// A ping of member 2 for member 1, number 5.
pub const PING: [u8; 24] = [
    0x53, 0x57, 1, 1, 0, 0, 0, 2, 0, 0, 0, 2, 0, 0, 0, 1, 0, 0, 0, 0, 0, 0, 0, 5,
];

/// A line with one datagram, the ping, after so many faults, of which it tells the last. A later call may fail, too. It holds the ping back until
/// the list was answered, and is idle before and after it.
#[derive(Drop)]
pub struct PingLine<'s, K: Clock + Drop> {
    /// What it waits by.
    pub clock: K,
    /// What it is told and tells.
    pub signals: &'s Signals,
    /// So many faults come first.
    pub faults: u32,
    /// The ping was given.
    pub was_given: bool,
}

impl<'s, K: Clock + Drop> Line for PingLine<'s, K> {
    ghost received = { λ line. None };

    ghost listed = { λ line. None };

    fn receive<R: Wait>(&mut self, _rt: &R, bytes: &mut [u8]) -> Got
        ensures { FitsInto result bytes.new }
    {
        let turn = self.signals.receives.fetch_add(1, Ordering::SeqCst);
        if turn < self.faults {
            if turn == self.faults - 1 {
                set(&self.signals.is_failing);
            }
            return Got::Fault;
        }
        if self.signals.fails(Failing::Line) {
            return Got::Fault;
        }
        pause(&self.clock);
        if !is_set(&self.signals.is_listed) || self.was_given {
            return if turn < TURNS { Got::Idle } else { Got::Fault };
        }
        self.was_given = true;
        match bytes.get_mut(..24) {
            Some(front) => {
                front.copy_from_slice(&PING);
                Got::Datagram(24, at(2))
            }
            None => Got::Fault,
        }
    }

    fn list(&mut self, _members: &[Peer]) {}
}

/// That line, after so many faults.
pub fn line<'s, K: Clock + Drop>(clock: K, signals: &'s Signals, faults: u32) -> PingLine<'s, K> {
    PingLine {
        clock,
        signals,
        faults,
        was_given: false,
    }
}
