//! Where operators come in.

ghost use Rattle.std.specs.Prelude.{◌≡◌, [], ◌∷◌};
ghost use Rattle.swim_trail.specs.Growing.{Grows};
ghost use Rattle.swim_desk.specs.Doors.{ComesNew, is_fault};

use std::sync::Wait;
use swim_text::{Polled, Sink};

/// What came to a door.
#[derive(Drop)]
pub enum Knock<A: Drop, B: Drop> {
    /// A connection: its control lines, and where the answers go.
    Conn(A, B),
    /// Nobody came.
    Idle,
    /// Somebody came and was turned away, for want of descriptors or memory. It is that one's loss, and no fault of the
    /// door.
    Refused,
    /// The door is out of order, for now or for good.
    Fault,
}

/// Where operators come in. Nothing of it waits but `wait`.
pub trait Door {
    ghost use Rattle.std.specs.Prelude.{Bool, List, Option};

    // of each of its answers so far, oldest first, whether it was a fault; where that is known
    ghost faults: { Self → Option (List Bool) };

    /// Where an operator's control lines come from.
    type Reader: Polled + Drop;

    /// Where the answers to them go. What it can't hand on at once, it holds back.
    type Writer: Sink + Drop;

    /// The next connection, if one has come. It gave nothing yet, and nothing was written for it. Both are known, and so
    /// is all that passes through its ends later.
    fn next<R: Wait>(&mut self, rt: &R) -> Knock<Self::Reader, Self::Writer>
        ensures noted { Grows (faults self.old) (faults self.new) (is_fault result ∷ []) }
        ensures newcomer { ComesNew Self.Reader.given Self.Writer.written result };

    /// Waits a moment, or until something comes: a connection, bytes of one, or room for an answer of one.
    fn wait<R: Wait>(&mut self, rt: &R)
        ensures { faults self.new ≡ faults self.old };

    /// The time now, in milliseconds since some moment.
    fn now(&mut self) -> u64
        ensures { faults self.new ≡ faults self.old };
}
