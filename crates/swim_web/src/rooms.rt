//! A room: 32 places, and who has them.

ghost use Rattle.std.specs.Prelude.{◌≡◌, ◌≤◌, ◌==◌, IfOk, box_value};
ghost use Rattle.swim_web.specs.Asked.{OnlyLooks};

use crate::daemons::Daemon;
use crate::guests::{Guest, Stand, turns};
use crate::limits::GUESTS;
use crate::services::Web;
use crate::shelves::Shelf;
use std::alloc::{AllocError, Global};
use std::marker::Model;
use std::time::{Duration, Instant};

/// Guests, of whom there are at most 32. A contract sees how many.
#[derive(Drop)]
pub struct Room {
    guests: Vec<Guest>,
}

impl Model for Room {
    ghost use Rattle.std.specs.Prelude.{ℕ, ◌≤◌, vec_len};

    ghost Value = { ℕ };

    ghost view = { λ room. vec_len room.guests };

    ghost invariant = { λ room. vec_len room.guests ≤ 32 };
}

impl Room {
    /// Returns a room where nobody is, or an error if memory is refused.
    pub fn new(alloc: Global) -> Result<Room, AllocError>
        ensures { IfOk result (λ room. room ≡ 0) }
    {
        Ok(Room {
            guests: Vec::with_capacity(alloc, GUESTS)?,
        })
    }

    /// Returns whether all places are taken.
    pub fn is_full(&self) -> bool
        ensures value { result ≡ (self.now == 32) }
        ensures fits { self.now ≤ 32 }
    {
        self.guests.len() == GUESTS
    }

    /// Returns whether some guest may have more to do.
    pub(crate) fn is_busy(&self) -> bool {
        self.guests.iter().any(|guest| guest.stand() == Stand::Busy)
    }

    /// Gives a guest a place, if one is free.
    pub(crate) fn admit(&mut self, guest: Guest) {
        if self.guests.len() < GUESTS {
            let _is_kept = self.guests.push(guest);
        }
    }

    /// Gives each guest a turn. Those whose connection is over leave.
    pub(crate) fn take_turns<D: Daemon + Drop, S: Shelf + Drop>(
        &mut self,
        web: &mut Web<D, S>,
        now: Instant,
        most: Duration,
    )
        ensures looks { OnlyLooks (D.asked (box_value web.old.daemon)) (D.asked (box_value web.new.daemon)) }
        ensures keeps { web.new.recent ≡ web.old.recent }
        ensures names { web.new.names ≡ web.old.names }
        ensures fewer { self.new ≤ self.old }
    {
        turns(self.guests.as_mut_slice(), web, now, most);
        self.guests.retain(|guest| guest.stand() != Stand::Over);
    }
}
