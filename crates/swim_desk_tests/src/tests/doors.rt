//! A door in memory, at which time stands still.

ghost use Rattle.std.specs.Prelude.{None};

use super::operators::{Keyboard, Room, Screen, Typed, Who};
use std::alloc::{AllocError, Global};
use std::sync::Wait;
use std::sync::atomic::Ordering;
use swim_desk::{Door, Knock};

/// A door that answers what it was told to, in a row. It is idle then, and when it was asked so often more, the life is
/// over.
#[derive(Drop)]
pub struct Row<'s> {
    /// What it answers next stands last.
    knocks: Vec<Knock<Typed, Who>>,
    room: &'s Room,
    rest: u32,
}

impl<'s> Row<'s> {
    /// Nothing stands in the row.
    pub fn new(alloc: Global, room: &'s Room, rest: u32) -> Row<'s> {
        Row {
            knocks: Vec::new(alloc),
            room,
            rest,
        }
    }

    /// Puts an operator before all others, who types these lines.
    pub fn operator(&mut self, who: Who, typed: Typed) -> Result<(), AllocError> {
        self.knocks.push(Knock::Conn(typed, who))?;
        Ok(())
    }

    /// Puts an answer before all others that nobody came.
    pub fn nobody(&mut self) -> Result<(), AllocError> {
        self.knocks.push(Knock::Idle)?;
        Ok(())
    }

    /// Puts so many before all others who are turned away.
    pub fn refusals(&mut self, count: u32) -> Result<(), AllocError> {
        for _refusal in 0..count {
            self.knocks.push(Knock::Refused)?;
        }
        Ok(())
    }

    /// Puts so many faults before all others.
    pub fn faults(&mut self, count: u32) -> Result<(), AllocError> {
        for _fault in 0..count {
            self.knocks.push(Knock::Fault)?;
        }
        Ok(())
    }

    // Nothing stands in the row any more.
    fn rest_or_end(&mut self) {
        if self.rest == 0 {
            self.room.over.store(true, Ordering::SeqCst);
        } else {
            self.rest -= 1;
        }
    }

    /// How many answers are left in the row.
    pub fn left(&self) -> usize {
        self.knocks.len()
    }
}

impl<'s> Door for Row<'s> {
    ghost faults = { λ door. None };

    type Reader = Keyboard;

    type Writer = Screen<'s>;

    fn next<R: Wait>(&mut self, _rt: &R) -> Knock<Keyboard, Screen<'s>> {
        match self.knocks.pop() {
            Some(Knock::Conn(typed, who)) => {
                Knock::Conn(Keyboard::of(typed), Screen::new(self.room, who))
            }
            Some(Knock::Idle) => Knock::Idle,
            Some(Knock::Refused) => Knock::Refused,
            Some(Knock::Fault) => Knock::Fault,
            None => {
                self.rest_or_end();
                Knock::Idle
            }
        }
    }

    fn wait<R: Wait>(&mut self, _rt: &R) {}

    fn now(&mut self) -> u64 {
        0
    }
}
