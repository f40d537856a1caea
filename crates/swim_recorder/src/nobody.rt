//! An entrance by which nobody comes in to watch, and a reporter who tells nothing.

ghost use Rattle.std.specs.Prelude.{None};

use crate::reporters::{Reporter, Standing};
use std::sync::Wait;
use swim_events::{Entrance, Offer, Outlet};
use swim_history::{Change, Opening};
use swim_node::Followed;

/// An entrance by which nobody comes.
#[derive(Drop)]
pub struct NoEntrance {}

/// An outlet that takes nothing.
#[derive(Drop)]
pub struct NoOutlet {}

impl Outlet for NoOutlet {
    ghost taken = { λ o. None };

    ghost offers = { λ o. None };

    fn offer(&mut self, _bytes: &[u8]) -> Offer {
        Offer::Gone
    }
}

impl Entrance<NoOutlet> for NoEntrance {
    fn next(&mut self) -> Option<NoOutlet> {
        None
    }

    fn now(&mut self) -> u64 {
        0
    }
}

/// A reporter who keeps nothing.
#[derive(Drop)]
pub struct NoReporter {}

impl Reporter for NoReporter {
    ghost heard = { λ r. None };

    fn begins(&mut self, _opening: &Opening) {}

    fn hear<R: Wait>(&mut self, _rt: &R, _next: &Followed, _change: &Option<Change>) {}

    fn rest<R: Wait>(&mut self, _rt: &R, _standing: Standing) {}
}
