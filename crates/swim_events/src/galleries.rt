//! All who watch.

ghost use Rattle.std.specs.Prelude.{◌≡◌, ◌≤◌, ◌↔◌, ◌∷◌, ◌++◌, [], ℕ, IsTrue, List, MatchBool, count_by, length, map};
ghost use Rattle.swim_history.specs.Setting.{Setting};
ghost use Rattle.swim_history.specs.Changes.{table};
ghost use Rattle.swim_events.specs.declared.events.Event.TheVariants.{Life};
ghost use Rattle.swim_events.specs.Guests.{AreSent, AtGuest, IsUntaken, TakesTurn, is_losing, newcomer, put_text};
ghost use Rattle.swim_events.specs.Telling.{AreTold};
ghost use Rattle.swim_events.specs.Texts.{event_text};
ghost use Rattle.swim_events.specs.Watched.{Lived};

use crate::events::{Event, line_of};
use crate::guests::Guest;
use crate::outlets::Outlet;
use crate::watchers::Watcher;
use std::alloc::Global;
use std::collections::VecDeque;
use std::marker::Model;
use swim_history::{KNOWN_MEMBERS, Row};

/// How many may watch at a time.
pub const MOST_WATCHERS: usize = 64;

/// All who watch, each with its outlet. None of them waits for another. A contract sees them, in the order in which
/// they came.
#[derive(Drop)]
pub struct Gallery<E: Outlet + Drop> {
    queue: VecDeque<Guest<E>>,
}

impl<E: Outlet + Drop> Model for Gallery<E> {
    ghost use Rattle.std.specs.Prelude.{List};
    ghost use Rattle.swim_events.specs.Guests.{AtGuest};

    ghost Value = { List AtGuest };

    ghost view = { λ g. g.queue.items };
}

impl<E: Outlet + Drop> Gallery<E> {
    /// Nobody watches. It takes no memory.
    pub fn new(alloc: Global) -> Gallery<E>
        ensures { result ≡ [] }
    {
        Gallery {
            queue: VecDeque::new(alloc),
        }
    }

    /// How many watch.
    pub fn len(&self) -> usize
        ensures { result ≡ length self.now }
    {
        self.queue.len()
    }

    /// Whether as many watch as may.
    pub fn is_full(&self) -> bool
        ensures { IsTrue result ↔ (MOST_WATCHERS ≤ length self.now) }
    {
        MOST_WATCHERS <= self.queue.len()
    }

    /// How many of those who watch don't keep up.
    pub fn losing(&self) -> usize
        ensures { result ≡ count_by is_losing self.now }
    {
        self.queue.iter().filter(|guest| guest.is_losing()).count()
    }

    /// Takes in who is to be told these rows first. `false` where as many watch as may, or memory was refused.
    pub fn admit(&mut self, alloc: Global, rows: &[Row], outlet: E) -> bool
        requires { length rows.now ≤ KNOWN_MEMBERS }
        ensures comes { MatchBool result
            (self.new ≡ self.old ++ newcomer rows.now (E.taken outlet) (E.offers outlet) ∷ [])
            (self.new ≡ self.old) }
        ensures told { (life : Lived) (older : List Lived) → rows.now ≡ table life.opening life.past →
            IsUntaken (E.taken outlet) → AreTold (life ∷ older) self.old → AreTold (life ∷ older) self.new }
    {
        self.take_in(alloc, rows, outlet)
    }

    /// Takes in who has come.
    fn take_in(&mut self, alloc: Global, rows: &[Row], outlet: E) -> bool
        requires { length rows.now ≤ KNOWN_MEMBERS }
        ensures { MatchBool result
            (self.new ≡ self.old ++ newcomer rows.now (E.taken outlet) (E.offers outlet) ∷ [])
            (self.new ≡ self.old) }
    {
        if self.is_full() {
            return false;
        }
        let Ok(watcher) = Watcher::new(alloc, rows) else {
            return false;
        };
        let Ok(outlet) = Box::new(alloc, outlet) else {
            return false;
        };
        self.queue.push_back(Guest::new(watcher, outlet)).is_ok()
    }

    /// Tells an event to all. Each takes its line or is lost, however the others stand.
    pub fn tell(&mut self, event: &Event)
        ensures exact { self.new ≡ map (put_text (event_text event.now)) self.old }
        ensures life { (lives : List Lived) (number : ℕ) (o : Setting) → event.now ≡ Life number → AreTold lives self.old →
            AreTold (record { number = number; opening = o; past = [] } ∷ lives) self.new }
    {
        self.put_each(event)
    }

    /// Puts the line of an event for each.
    fn put_each(&mut self, event: &Event)
        ensures { self.new ≡ map (put_text (event_text event.now)) self.old }
    {
        let line = line_of(event);
        let text = line.as_str().as_bytes();
        for _guest in 0..self.len() {
            self.put_first(text);
        }
    }

    /// Offers to each all that is to be sent to it, at this time in milliseconds. Who takes nothing more leaves, who was
    /// told of its loss, and to whom nothing of what waits could be sent for ten seconds.
    pub fn send(&mut self, time: u64)
        ensures exact { AreSent time self.old self.new }
        ensures told { (lives : List Lived) → AreTold lives self.old → AreTold lives self.new }
    {
        self.turn_each(time)
    }

    /// The turn of each.
    fn turn_each(&mut self, time: u64)
        ensures { AreSent time self.old self.new }
    {
        for _guest in 0..self.len() {
            self.turn_first(time);
        }
    }

    /// Has all leave.
    pub fn clear(&mut self)
        ensures { self.new ≡ [] }
    {
        self.queue.clear();
    }

    /// Puts a text for the first, who is the last then.
    fn put_first(&mut self, text: &[u8])
        ensures { (first : AtGuest) (others : List AtGuest) → self.old ≡ first ∷ others →
            self.new ≡ others ++ put_text text.now first ∷ [] }
    {
        if let Some(mut first) = self.queue.pop_front() {
            first.put(text);
            self.queue.push_back_reserved(first);
        }
    }

    /// The turn of the first, who is the last then, or leaves.
    fn turn_first(&mut self, time: u64)
        ensures { (first : AtGuest) (others : List AtGuest) → self.old ≡ first ∷ others →
            TakesTurn time first others self.new }
    {
        if let Some(mut first) = self.queue.pop_front() {
            if first.turn(time) {
                self.queue.push_back_reserved(first);
            }
        }
    }
}
