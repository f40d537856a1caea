//! A pace that is over.

ghost use Rattle.std.specs.Prelude.{None};

use std::sync::Wait;
use swim_work::{Beat, Pace};

/// A pace that is over at once.
#[derive(Drop)]
pub struct Never {}

impl Pace for Never {
    ghost beats = { λ p. None };

    fn next<R: Wait>(&mut self, _rt: &R) -> Beat {
        Beat::Stop
    }
}
