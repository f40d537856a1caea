//! Where the ticks come from.

ghost use Rattle.std.specs.Prelude.{[], ◌∷◌};
ghost use Rattle.swim_trail.specs.Growing.{Grows};

use std::sync::Wait;

/// What a pace gave.
#[derive(Clone, Copy, Debug, PartialEq, Eq)]
pub enum Beat {
    /// One tick of time passed.
    Tick,
    /// None did yet.
    Idle,
    /// The life is to end.
    Stop,
}

/// Where the ticks come from. Who ticks asks it once a turn, so it doesn't wait long before it answers that it is idle.
pub trait Pace {
    ghost use Rattle.std.specs.Prelude.{List, Option};
    ghost use Rattle.swim_work.specs.declared.paces.Beat.{Beat};

    // the beats that it gave so far, oldest first, where they are known
    ghost beats: { Self → Option (List Beat) };

    /// Waits for the next beat.
    fn next<R: Wait>(&mut self, rt: &R) -> Beat
        ensures { Grows (beats self.old) (beats self.new) (result ∷ []) };
}
