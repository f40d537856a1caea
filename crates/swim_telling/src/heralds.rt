//! The herald of lives, which tells people that one begins.

ghost use Rattle.std.specs.Prelude.{◌∷◌, []};
ghost use Rattle.swim_telling.specs.Notices.{Notices};
ghost use Rattle.swim_trail.specs.Growing.{Grows};

use swim_text::Sink;

/// Tells people that a life begins, or is quiet. It never waits.
pub trait Herald {
    ghost use Rattle.std.specs.Prelude.{ℕ, List, Option};

    // the numbers of the lives that it was told of so far, oldest first, where those are known
    ghost begun: { Self → Option (List ℕ) };

    /// Tells that the life of this number begins, counted from 0. It writes whole lines to the notices, or nothing.
    fn begins<F: Sink>(&mut self, number: u64, notices: &mut F)
        ensures begun { Grows (begun self.old) (begun self.new) (number ∷ []) }
        ensures notices { Notices (F.written notices.old, F.failures notices.old)
            (F.written notices.new, F.failures notices.new) };
}
