//! The crew of a life, and the seats of its node.

ghost use Rattle.std.specs.Prelude.{◌≡◌, [], ◌∷◌};

use swim_node::{Naming, Seat};
use swim_work::{Recorder, Worker};

/// The crew of a life: three workers that call the node, and a recorder that reads its journal. It goes from life to
/// life. Each of them is in a box, since a generic function knows nothing of their sizes.
#[derive(Drop)]
pub struct Crew<A: Worker, B: Worker, C: Worker, D: Recorder> {
    /// The worker with the first seat. It runs in a thread of its own.
    pub first: Box<A>,
    /// The worker with the second seat. It runs in a thread of its own.
    pub second: Box<B>,
    /// The worker with the third seat. It runs in the thread that starts the others.
    pub third: Box<C>,
    /// It runs in a thread of its own.
    pub recorder: Box<D>,
}

/// The four seats of a node, in order.
pub struct Seats<N: Naming> {
    /// The first worker's.
    pub first: Seat<N>,
    /// The second worker's.
    pub second: Seat<N>,
    /// The third worker's.
    pub third: Seat<N>,
    /// Nobody calls with it.
    pub fourth: Seat<N>,
}

// By hand, so that whoever holds one proves a single call where it is dropped, and not each field.
impl<N: Naming> Drop for Seats<N> {
    fn drop(self) {
        let Seats {
            first: _,
            second: _,
            third: _,
            fourth: _,
        } = self;
    }
}

/// Names the seats of a node.
pub(crate) fn seats_of<N: Naming>(seats: [Seat<N>; 4]) -> Seats<N>
    ensures { result.first ∷ result.second ∷ result.third ∷ result.fourth ∷ [] ≡ seats }
{
    let [first, second, third, fourth] = seats;
    Seats {
        first,
        second,
        third,
        fourth,
    }
}
