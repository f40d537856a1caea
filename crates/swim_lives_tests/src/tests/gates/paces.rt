//! A pace of some ticks, and one that is over.

ghost use Rattle.std.specs.Prelude.{None};

use super::signals::{TURNS, is_set, pause};
use std::rt::Clock;
use std::sync::Wait;
use std::sync::atomic::AtomicBool;
use swim_work::{Beat, Pace};

/// A pace of so many ticks. After them it holds its stop back until the signal is set.
#[derive(Drop)]
pub struct StopPace<'s, K: Clock + Drop> {
    /// What it waits by.
    pub clock: K,
    /// The signal.
    pub signal: &'s AtomicBool,
    /// So many ticks are left.
    pub ticks: u32,
    /// So often it waited for the signal.
    pub turns: u32,
}

impl<'s, K: Clock + Drop> Pace for StopPace<'s, K> {
    ghost beats = { λ pace. None };

    fn next<R: Wait>(&mut self, _rt: &R) -> Beat {
        if self.ticks > 0 {
            self.ticks -= 1;
            return Beat::Tick;
        }
        pause(&self.clock);
        self.turns = self.turns.saturating_add(1);
        if self.turns < TURNS && !is_set(self.signal) {
            return Beat::Idle;
        }
        Beat::Stop
    }
}

/// That pace, of so many ticks and with that signal.
pub fn pace<'s, K: Clock + Drop>(clock: K, signal: &'s AtomicBool, ticks: u32) -> StopPace<'s, K> {
    StopPace {
        clock,
        signal,
        ticks,
        turns: 0,
    }
}

/// A pace that is over at once.
#[derive(Drop)]
pub struct Never {}

impl Pace for Never {
    ghost beats = { λ pace. None };

    fn next<R: Wait>(&mut self, _rt: &R) -> Beat {
        Beat::Stop
    }
}
