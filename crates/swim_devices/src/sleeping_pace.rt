//! The pace of a daemon: it sleeps from tick to tick.

ghost use Rattle.std.specs.Prelude.{◌≡◌, ◌+◌, [], ◌∷◌, ◌++◌, Some, map};
ghost use Rattle.swim_devices.specs.Pacing.{Beats, HasSlept};

use std::marker::Model;
use std::rt::Clock;
use std::sync::Wait;
use std::thread;
use std::time::Duration;
use swim_trail::Trail;
use swim_work::{Beat, Pace};

/// The longest sleep at once, in milliseconds, so that the ticker sees soon that its life is over.
const LONGEST_MS: u32 = 100;

/// By whom a pace sleeps.
pub trait Sleeper {
    ghost use Rattle.std.specs.Prelude.{ℕ, Option};

    // for how many milliseconds it slept so far, where that is known
    ghost slept: { Self → Option ℕ };

    /// Sleeps for so many milliseconds.
    fn sleep(&mut self, milliseconds: u32)
        ensures { HasSlept (slept self.old) milliseconds (slept self.new) };
}

/// A sleeper by a clock. A contract sees for how many milliseconds it told the system to sleep; how long a sleep really
/// lasts is a matter of the system.
#[derive(Drop)]
pub struct ClockSleeper<K: Clock + Drop> {
    clock: K,
    asked: Trail<u32>,
}

impl<K: Clock + Drop> Model for ClockSleeper<K> {
    ghost use Rattle.std.specs.Prelude.{ℕ};
    ghost use Rattle.swim_devices.specs.Trails.{sum_in};

    ghost Value = { ℕ };

    ghost view = { λ s. sum_in s.asked.items };
}

impl<K: Clock + Drop> ClockSleeper<K> {
    /// A sleeper by this clock, which didn't sleep yet.
    pub fn new(clock: K) -> ClockSleeper<K>
        ensures { result ≡ 0 }
    {
        ClockSleeper {
            clock,
            asked: Trail::new(),
        }
    }

    /// Has the system sleep, and notes for how long. Nothing else sleeps or notes anything.
    fn sleep_once(&mut self, milliseconds: u32)
        ensures { self.new ≡ self.old + milliseconds }
    {
        thread::sleep(&self.clock, Duration::from_millis(u64::from(milliseconds)));
        self.asked.note(&milliseconds, &[]);
    }
}

impl<K: Clock + Drop> Sleeper for ClockSleeper<K> {
    ghost slept = { λ s. Some s };

    fn sleep(&mut self, milliseconds: u32)
        ensures { self.new ≡ self.old + milliseconds }
    {
        self.sleep_once(milliseconds);
    }
}

/// Gives a tick after each sleep of so many milliseconds, and never tells a life to end.
#[derive(Drop)]
pub struct SleepingPace<S: Sleeper + Drop> {
    sleeper: S,
    tick_ms: u32,
    // How much of the present tick was not slept yet.
    left_ms: u32,
    given: Trail<Beat>,
}

impl<S: Sleeper + Drop> Model for SleepingPace<S> {
    ghost use Rattle.std.specs.Prelude.{map};
    ghost use Rattle.swim_devices.specs.Pacing.{IsSlept, Pacing};
    ghost use Rattle.swim_trail.specs.Noted.{value_in};

    ghost Value = { Pacing };

    ghost view = { λ p. record {
      tick = p.tick_ms;
      left = p.left_ms;
      slept = S.slept p.sleeper;
      beats = map value_in p.given.items;
    } };

    ghost invariant = { λ p. IsSlept (S.slept p.sleeper) p.tick_ms p.left_ms (map value_in p.given.items) };
}

impl<S: Sleeper + Drop> SleepingPace<S> {
    /// A pace of so many milliseconds a tick.
    #[tactic(auto, using(crate::proofs::Slept::none_slept))]
    pub fn new(sleeper: S, tick_ms: u32) -> SleepingPace<S>
        ensures { result ≡ record { tick = tick_ms; left = tick_ms; slept = S.slept sleeper; beats = [] } }
    {
        SleepingPace {
            sleeper,
            tick_ms,
            left_ms: tick_ms,
            given: Trail::new(),
        }
    }

    /// Sleeps for what is left of the tick, or for a tenth of a second of it, and gives the tick where that is over. What
    /// it gives it notes.
    #[tactic(auto, using(crate::proofs::Slept::idle_slept, crate::proofs::Slept::tick_slept, swim_trail::specs::Noted::map_more))]
    fn sleep_on(&mut self) -> Beat
        ensures beats { Beats self.old result self.new }
        ensures given { self.new.beats ≡ self.old.beats ++ result ∷ [] }
    {
        let time = self.left_ms.min(LONGEST_MS);
        self.sleeper.sleep(time);
        self.left_ms -= time;
        if self.left_ms > 0 {
            self.given.note(&Beat::Idle, &[]);
            return Beat::Idle;
        }
        self.left_ms = self.tick_ms;
        self.given.note(&Beat::Tick, &[]);
        Beat::Tick
    }
}

impl<S: Sleeper + Drop> Pace for SleepingPace<S> {
    ghost beats = { λ p. Some p.beats };

    fn next<R: Wait>(&mut self, _rt: &R) -> Beat
        ensures beats { Beats self.old result self.new }
        ensures given { self.new.beats ≡ self.old.beats ++ result ∷ [] }
    {
        self.sleep_on()
    }
}
