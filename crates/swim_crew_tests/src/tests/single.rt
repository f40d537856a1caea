//! One life.

use super::*;

// Ten ticks of the first worker and then a stop, while the others give theirs: the recorder has counted each call of
// the journal once, by its seat, and has finished one journal.
#[test]
fn three_workers_and_a_recorder(rt: HostRuntime) -> Result<(), Fail> {
    let crew = crew(
        rt.alloc(),
        TickingWorker::new(10, Then::Stops),
        TickingWorker::new(20, Then::Waits),
        TickingWorker::new(30, Then::Waits),
    )?;
    let chooser = Seeded::new([0; 32]);
    let (past, crew) = live(&rt, rt.alloc(), opening()?, chooser, 1000, crew);
    let Ok(past) = past else {
        assert!(rt; false);
        return Ok(());
    };
    assert_same(&rt, &past.why, &Why::Stopped);
    assert!(rt; past.is_stopped());
    assert!(rt; past.ends.all_began);
    let recorder = &crew.recorder;
    assert_same(&rt, &recorder.first, &10);
    assert_same(
        &rt,
        &recorder.second,
        &20u32.saturating_sub(crew.second.left),
    );
    assert_same(&rt, &recorder.third, &30u32.saturating_sub(crew.third.left));
    assert_same(&rt, &recorder.fourth, &0);
    assert_same(&rt, &recorder.journals, &1);
    let called = recorder.first.saturating_add(recorder.second);
    let all = called.saturating_add(recorder.third);
    assert_same(&rt, &past.journal.len(), &all);
    Ok(())
}

// What the three workers counted is told as their sums: 1 + 8 + 64, 2 + 16 + 128 and 4 + 32 + 256.
#[test]
fn counts_of_three_workers(rt: HostRuntime) -> Result<(), Fail> {
    let mut first = TickingWorker::new(1, Then::Stops);
    first.counts = Counts {
        unsent: 1,
        wire: 2,
        refused: 4,
    };
    let mut second = TickingWorker::new(0, Then::Waits);
    second.counts = Counts {
        unsent: 8,
        wire: 16,
        refused: 32,
    };
    let mut third = TickingWorker::new(0, Then::Waits);
    third.counts = Counts {
        unsent: 64,
        wire: 128,
        refused: 256,
    };
    let crew = crew(rt.alloc(), first, second, third)?;
    let chooser = Seeded::new([0; 32]);
    let (past, _crew) = live(&rt, rt.alloc(), opening()?, chooser, 1000, crew);
    let Ok(past) = past else {
        assert!(rt; false);
        return Ok(());
    };
    assert_same(&rt, &past.unsent(), &73);
    assert_same(&rt, &past.wire(), &146);
    assert_same(&rt, &past.refused(), &292);
    Ok(())
}
