//! Lives that end for another reason than a full journal.

use super::successions::{assert_noted, run_short};
use super::*;

#[test]
fn a_worker_gives_up(rt: HostRuntime) -> Result<(), Fail> {
    let ran = run_short(
        &rt,
        rt.alloc(),
        TickingWorker::new(0, Then::Waits),
        TickingWorker::new(3, Then::GivesUp),
        TickingWorker::new(0, Then::Waits),
    )?;
    let text = b"open 0 after 0\nclose 0 socket entries 3\n";
    assert_noted(&rt, &ran, LivesEnd::Socket, text);
    Ok(())
}

#[test]
fn a_worker_has_no_memory(rt: HostRuntime) -> Result<(), Fail> {
    let ran = run_short(
        &rt,
        rt.alloc(),
        TickingWorker::new(0, Then::Waits),
        TickingWorker::new(0, Then::StopsLate),
        TickingWorker::new(2, Then::Starves),
    )?;
    let text = b"open 0 after 0\nclose 0 no memory entries 2\n";
    assert_noted(&rt, &ran, LivesEnd::NoMemory, text);
    Ok(())
}
