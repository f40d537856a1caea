//! Crews of ticking workers.

use super::*;

/// A crew of ticking workers.
pub type TickingCrew = Crew<TickingWorker, TickingWorker, TickingWorker, CountingRecorder>;

/// A crew of these workers, with a recorder that has counted nothing yet.
pub fn crew(
    alloc: Global,
    first: TickingWorker,
    second: TickingWorker,
    third: TickingWorker,
) -> Result<TickingCrew, AllocError> {
    Ok(Crew {
        first: Box::new(alloc, first)?,
        second: Box::new(alloc, second)?,
        third: Box::new(alloc, third)?,
        recorder: Box::new(alloc, CountingRecorder::new())?,
    })
}

/// Member 1, which knows member 2 and asks no relay, and has periods of three ticks.
pub fn opening() -> Result<Opening, OpeningFault> {
    let id = |number| Id::new(number).unwrap_or_default();
    let peer = Peer {
        ip: [10, 0, 0, 2],
        port: 7000,
    };
    Opening::check(id(1), 0, 1, 3, &[(id(2), peer)], 0, Version::One)
}
