//! Lives: one node after another, each of which goes on from the journal of the one before, with the same crew.

ghost use Rattle.std.specs.Prelude.{◌≡◌, IfOk, MatchResult};
ghost use Rattle.swim_targets.specs.Draws.{DrawsOrder, DrawsPlace};
ghost use Rattle.swim_crew.specs.Crews.{crew_at, rules, stand_at};
ghost use Rattle.swim_crew.specs.Draws.{WasDrawn};
ghost use Rattle.swim_crew.specs.Life.{IsLife};
ghost use Rattle.swim_crew.specs.Lives.{AreLived, HasOpened, IsKeptLife, end_without};

use crate::crews::Crew;
use crate::keepers::Keeper;
use crate::named_lives::live_so;
use crate::pasts::{LivesEnd, Past, Terms};
use std::alloc::Global;
use std::marker::Brand;
use std::sync::Wait;
use std::thread::Threads;
use swim_history::Opening;
use swim_node::{OpenFault, Parts};
use swim_targets::Seeded;
use swim_work::{Recorder, Worker};

/// Opens a node with a journal of at most `limit` entries, and runs its life with this crew. What the journal holds was
/// drawn from the chooser. There is no life if the node gets no memory (`NoMemory`) or no reader of its member table
/// (`NoPlace`): then the crew is as it was.
pub fn live<
    R: Threads + Wait + Sync,
    A: Worker + Send,
    B: Worker + Send,
    C: Worker,
    D: Recorder + Send,
>(
    rt: &R,
    alloc: Global,
    opening: Opening,
    chooser: Seeded,
    limit: u32,
    crew: Crew<A, B, C, D>,
) -> (Result<Past, OpenFault>, Crew<A, B, C, D>)
    ensures life { MatchResult result.0
        (λ past. IsLife A.works B.works C.works D.records opening limit (crew_at crew) past (crew_at result.1))
        (λ fault. result.1 ≡ crew) }
    ensures drawn { IfOk result.0 (λ past. WasDrawn DrawsOrder DrawsPlace opening chooser past.journal.past) }
{
    let Ok(parts) = Parts::make(alloc, limit) else {
        return (Err(OpenFault::NoMemory), crew);
    };
    live_so::<Brand, R, A, B, C, D>(rt, alloc, parts, opening, chooser, limit, crew)
}

/// Runs lives with this crew until one ends for another reason than a full journal. A full journal ends its life, and
/// the next life goes on from it: with the members that are known, up or failed, and with period numbers above all that
/// were used, but without an aim and without waiting requests. Life `i`, counted from 0, draws from stream `i` of the
/// seed. No life follows one in which a worker was told to stop, even if its journal was full as well.
///
/// The keeper is called before and after each life. Returns why the lives ended, and the crew.
pub fn run_lives<
    R: Threads + Wait + Sync,
    A: Worker + Send,
    B: Worker + Send,
    C: Worker,
    D: Recorder + Send,
    K: Keeper<D>,
>(
    rt: &R,
    alloc: Global,
    opening: Opening,
    terms: Terms,
    crew: Crew<A, B, C, D>,
    keeper: &mut K,
) -> (LivesEnd, Crew<A, B, C, D>)
    ensures { AreLived (rules A.works B.works C.works D.records K.opens K.closes) opening terms.limit terms.seed
        (stand_at crew keeper.old) (stand_at result.1 keeper.new) result.0 }
{
    let mut opening = opening;
    let mut number: u64 = 0;
    let mut crew = crew;
    for _life in rt.forever() {
        let (past, after) = live_next(rt, alloc, opening, terms, number, crew, keeper);
        crew = after;
        let past = match past {
            Ok(past) => past,
            Err(fault) => return (end_without(fault), crew),
        };
        if let Some(end) = past.end() {
            return (end, crew);
        }
        opening = Opening::after(&past.journal);
        number = number.saturating_add(1);
    }
    unreachable!()
}

/// The life of this number, and what its keeper does.
fn live_next<
    R: Threads + Wait + Sync,
    A: Worker + Send,
    B: Worker + Send,
    C: Worker,
    D: Recorder + Send,
    K: Keeper<D>,
>(
    rt: &R,
    alloc: Global,
    opening: Opening,
    terms: Terms,
    number: u64,
    crew: Crew<A, B, C, D>,
    keeper: &mut K,
) -> (Result<Past, OpenFault>, Crew<A, B, C, D>)
    ensures { MatchResult result.0
        (λ past. IsKeptLife (rules A.works B.works C.works D.records K.opens K.closes) opening terms.limit terms.seed
        number (stand_at crew keeper.old) past (stand_at result.1 keeper.new))
        (λ fault. HasOpened (rules A.works B.works C.works D.records K.opens K.closes) opening number
        (stand_at crew keeper.old) (stand_at result.1 keeper.new)) }
{
    let mut crew = crew;
    keeper.open(rt, number, &opening, &mut *crew.recorder);
    let chooser = Seeded::life(terms.seed, number);
    let (past, mut crew) = live(rt, alloc, opening, chooser, terms.limit, crew);
    match past {
        Ok(past) => {
            keeper.close(rt, number, &past, &mut *crew.recorder);
            (Ok(past), crew)
        }
        Err(fault) => (Err(fault), crew),
    }
}

/// Why lives ended whose next one got no node.
fn end_without(fault: OpenFault) -> LivesEnd
    ensures { result ≡ end_without fault }
{
    match fault {
        OpenFault::NoMemory => LivesEnd::NoMemory,
        OpenFault::NoPlace => LivesEnd::NoPlace,
    }
}
