//! Who reports what happens.

ghost use Rattle.std.specs.Prelude.{ℕ, List, Option};
ghost use Rattle.swim_web.specs.Recent.{Hears};

use arrayvec::ArrayVec;

/// The most bytes of an event: an object of JSON for a change of the member table, with its time, has less than 128.
const LINE_BYTES: usize = 192;

/// An event, as one line of text without its line feed.
pub type EventLine = ArrayVec<u8, LINE_BYTES>;

/// A source of events that is never waited for: a daemon.
pub trait Teller {
    // The events that were heard so far, oldest first; `None` where that is not known, as of a socket.
    ghost heard: { Self → Option (List (List ℕ)) };

    /// Takes the next event in, if there is one now. Returns whether there was.
    fn hear(&mut self, line: &mut EventLine) -> bool
        ensures { Hears (heard self.old) (heard self.new) line.new.items result };
}
