//! One life of a node that its types know by a name.

ghost use Rattle.std.specs.Prelude.{◌≡◌, IfOk, MatchResult, Ok};
ghost use Rattle.swim_targets.specs.Draws.{DrawsOrder, DrawsPlace};
ghost use Rattle.swim_node.specs.Draws.{DrawsAll};
ghost use Rattle.swim_node.specs.News.{SawNothing};
ghost use Rattle.swim_node.specs.Seats.{AreNew};
ghost use Rattle.swim_crew.specs.Crews.{crew_at};
ghost use Rattle.swim_crew.specs.Life.{IsLife};

use crate::crews::Crew;
use crate::life::{Life, run_life};
use crate::pasts::Past;
use std::alloc::Global;
use std::sync::Wait;
use std::thread::Threads;
use swim_history::Opening;
use swim_node::{Naming, Node, OpenFault, Parts, Seat, Viewer};
use swim_targets::Seeded;
use swim_work::{Recorder, Worker};

/// As `live`, of a node that its types know by a name, and of whose parts and draws they know.
pub(crate) fn live_so<
    N: Naming + Send + Sync,
    R: Threads + Wait + Sync,
    A: Worker + Send,
    B: Worker + Send,
    C: Worker,
    D: Recorder + Send,
>(
    rt: &R,
    alloc: Global,
    parts: Parts,
    opening: Opening,
    chooser: Seeded,
    limit: u32,
    crew: Crew<A, B, C, D>,
) -> (Result<Past, OpenFault>, Crew<A, B, C, D>)
    requires parts { parts ≡ record { limit = N.limit; ledgers = N.ledgers; log = N.log; cells = N.cells } }
    requires opening { opening ≡ N.opening }
    requires limit { limit ≡ N.limit }
    requires drawn { DrawsAll DrawsOrder DrawsPlace N.opening chooser N.drawn }
    ensures life { MatchResult result.0
        (λ past. IsLife A.works B.works C.works D.records opening limit (crew_at crew) past (crew_at result.1))
        (λ fault. result.1 ≡ crew) }
    ensures drawn { IfOk result.0 (λ past. N.drawn past.journal.past) }
{
    let (node, seats, viewers) = match opened::<N, R>(rt, alloc, parts, opening, chooser, limit) {
        Ok(opened) => opened,
        Err(fault) => return (Err(fault), crew),
    };
    let life = run_life(rt, alloc, node, seats, viewers, crew);
    left(life)
}

/// What is left of a life, and its crew. The seats are dropped.
fn left<N: Naming, A: Worker, B: Worker, C: Worker, D: Recorder>(
    life: Life<N, A, B, C, D>,
) -> (Result<Past, OpenFault>, Crew<A, B, C, D>)
    ensures past { result.0 ≡ Ok life.past }
    ensures crew { result.1 ≡ life.crew }
{
    let Life {
        past,
        seats: _,
        crew,
    } = life;
    (Ok(past), crew)
}

/// A node with its seats and its viewers. There are none if memory runs out, or if no reader of the member table is
/// left.
fn opened<'r, N: Naming, R: Wait>(
    rt: &'r R,
    alloc: Global,
    parts: Parts,
    opening: Opening,
    chooser: Seeded,
    limit: u32,
) -> Result<(Node<N, Seeded, &'r R>, [Seat<N>; 4], [Viewer<N>; 4]), OpenFault>
    requires parts { parts ≡ record { limit = N.limit; ledgers = N.ledgers; log = N.log; cells = N.cells } }
    requires opening { opening ≡ N.opening }
    requires limit { limit ≡ N.limit }
    requires drawn { DrawsAll DrawsOrder DrawsPlace N.opening chooser N.drawn }
    ensures seats { IfOk result (λ opened. AreNew opened.1) }
    ensures viewers { IfOk result (λ opened. SawNothing opened.2) }
{
    let (node, seats, viewers) = Node::open(alloc, rt, parts, opening, chooser, limit)?;
    Ok((node, seats, viewers))
}
