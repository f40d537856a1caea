//! Where the lines of events come from.

ghost use Rattle.std.specs.Prelude.{◌∷◌, [], MatchBool, List, Option, Some, None};
ghost use Rattle.swim_watch.specs.Hearings.{Hearing};
ghost use Rattle.swim_trail.specs.Growing.{Grows};

use arrayvec::ArrayVec;
use swim_text::Sink;

/// The most bytes of a line, without its line feed. A daemon's have fewer.
pub const LINE_BYTES: usize = 128;

/// A line, without its line feed.
pub type EventLine = ArrayVec<u8, LINE_BYTES>;

/// Where the lines of events come from: a daemon.
pub trait Feed {
    // each time it was heard so far, oldest first, where that is known: a line, or that none will come; and what had
    // been written when it was asked
    ghost heard: { Self → Option (List Hearing) };

    /// Takes in the next line, and waits for it. Where the lines come from somebody else than before, from whom a table
    /// comes first, the line is `again`. `false` where none will come. The sink is where the lines are written: it
    /// isn't touched, and stands here so that what was written before can be said.
    fn hear<W: Sink>(&mut self, line: &mut EventLine, writer: &W) -> bool
        ensures { MatchBool result
            (Grows (heard self.old) (heard self.new)
            (record { line = Some line.new.items; written = W.written writer.now; held = W.held writer.now } ∷ []))
            (Grows (heard self.old) (heard self.new)
            (record { line = None; written = W.written writer.now; held = W.held writer.now } ∷ [])) };
}
