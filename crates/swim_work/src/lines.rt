//! Where datagrams come in.

ghost use Rattle.std.specs.Prelude.{◌≡◌, ◌≤◌, [], ◌∷◌, length};
ghost use Rattle.swim_work.specs.Gates.{FitsInto};
ghost use Rattle.swim_trail.specs.Growing.{Grows};

use std::sync::Wait;
use swim_wire::{KNOWN_MEMBERS, Peer};

/// What a line got.
#[derive(Clone, Copy, Debug, PartialEq, Eq)]
pub enum Got {
    /// A datagram of so many bytes, from this address. Of one that is longer than the buffer, as many as fit.
    Datagram(usize, Peer),
    /// Nothing came for a moment.
    Idle,
    /// The line is out of order, for now or for good.
    Fault,
}

/// Where datagrams come in. The receiver has it for itself, and asks it once a turn: where nothing comes it waits a
/// moment, but not long, before it answers that it is idle.
pub trait Line {
    ghost use Rattle.std.specs.Prelude.{List, Option};
    ghost use Rattle.swim_wire.specs.Address.{Address};
    ghost use Rattle.swim_work.specs.Gates.{Received};

    // what it gave so far, oldest first, where that is known
    ghost received: { Self → Option (List Received) };

    // what it was shown so far, the addresses of each time in a list of their own, oldest first; where that is known
    ghost listed: { Self → Option (List (List Address)) };

    /// The next datagram, which is put at the front of the buffer.
    fn receive<R: Wait>(&mut self, rt: &R, bytes: &mut [u8]) -> Got
        ensures fits { FitsInto result bytes.new }
        ensures received { Grows (received self.old) (received self.new)
            (record { got = result; bytes = bytes.new } ∷ []) }
        ensures listed { listed self.new ≡ listed self.old };

    /// Shows it the addresses of the members: of all that stood in the member table when the receiver looked at it
    /// last, whether they are up or failed. A line to which all are alike does nothing.
    fn list(&mut self, members: &[Peer])
        requires { length members.now ≤ KNOWN_MEMBERS }
        ensures received { received self.new ≡ received self.old }
        ensures listed { Grows (listed self.old) (listed self.new) (members.now ∷ []) };
}
