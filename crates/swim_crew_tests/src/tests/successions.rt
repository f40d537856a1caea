//! Lives that follow one another, or don't.

use super::*;

/// How lives of at most five entries ended, and what the keeper noted.
#[derive(Drop)]
pub struct Ran {
    pub end: LivesEnd,
    pub page: Page,
    pub journals: u32,
}

/// Runs lives of at most five entries with these workers.
pub fn run_short<R: Threads + Wait + Sync>(
    rt: &R,
    alloc: Global,
    first: TickingWorker,
    second: TickingWorker,
    third: TickingWorker,
) -> Result<Ran, Fail> {
    let crew = crew(alloc, first, second, third)?;
    let mut keeper = NotingKeeper {
        page: Page::new(alloc),
    };
    let terms = Terms {
        seed: [0; 32],
        limit: 5,
    };
    let (end, crew) = run_lives(rt, alloc, opening()?, terms, crew, &mut keeper);
    Ok(Ran {
        end,
        page: keeper.page,
        journals: crew.recorder.journals,
    })
}

/// That lives ended so, and that this was noted.
pub fn assert_noted<R: Abort>(rt: &R, ran: &Ran, end: LivesEnd, text: &[u8]) {
    assert_same(rt, &ran.end, &end);
    assert!(rt; ran.page.text() == text);
}

// Twelve ticks, of which the sixth of each of the first two lives meets a full journal, and a stop in the third. Five
// ticks are the starts of two periods.
#[test]
fn three_lives(rt: HostRuntime) -> Result<(), Fail> {
    let ran = run_short(
        &rt,
        rt.alloc(),
        TickingWorker::new(12, Then::Stops),
        TickingWorker::new(0, Then::Waits),
        TickingWorker::new(0, Then::Waits),
    )?;
    let text = b"open 0 after 0\nclose 0 journal full entries 5\n\
        open 1 after 2\nclose 1 journal full entries 5\n\
        open 2 after 4\nclose 2 stopped entries 0\n";
    assert_noted(&rt, &ran, LivesEnd::Stopped, text);
    assert_same(&rt, &ran.journals, &3);
    Ok(())
}

// The worker with the third seat is told to stop when the journal is full: no life follows.
#[test]
fn a_stop_at_a_full_journal(rt: HostRuntime) -> Result<(), Fail> {
    let ran = run_short(
        &rt,
        rt.alloc(),
        TickingWorker::new(12, Then::Waits),
        TickingWorker::new(0, Then::Waits),
        TickingWorker::new(0, Then::StopsLate),
    )?;
    let text = b"open 0 after 0\nclose 0 journal full entries 5\n";
    assert_noted(&rt, &ran, LivesEnd::Stopped, text);
    Ok(())
}
