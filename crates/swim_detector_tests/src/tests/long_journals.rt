//! Journals of some 100,000 entries. That what tells of all of one is not refused there, no contract can say.

use super::*;
use swim_history::{Journal, Judged, Probed};

// Member 2 is probed and doesn't answer, is judged, and joins again, so often; each time takes two periods.
const TIMES: u32 = 14_286;

fn judged_so_often<R: Abort>(rt: &R, alloc: Global) -> Journal {
    let mut recorder = recorder(rt, alloc, 0, &[2], 200_000);
    for _ in 0..TIMES {
        call_each(rt, &mut recorder, &[Call::Tick; 4]);
        let join = Call::Join(id(2), at(2));
        call_each(rt, &mut recorder, &[join, Call::Tick, Call::Tick]);
    }
    recorder.into_journal()
}

#[test]
fn a_long_journal_tells_its_judgements(rt: HostRuntime) -> Result<(), Fail> {
    let journal = judged_so_often(&rt, rt.alloc());
    assert_same(&rt, &journal.len(), &(7 * TIMES));
    assert_judgements(&rt, journal.judgements()?.as_slice());
    Ok(())
}

// Member 2 was judged in every other period.
fn assert_judgements<R: Abort>(rt: &R, judgements: &[Judged]) {
    let mut number = 1;
    for judged in judgements {
        assert_same(rt, &(judged.member, judged.number), &(id(2), number));
        number = number.wrapping_add(2);
    }
    assert_same(rt, &judgements.len(), &(TIMES as usize));
}

#[test]
fn a_long_journal_tells_its_probes(rt: HostRuntime) -> Result<(), Fail> {
    let journal = judged_so_often(&rt, rt.alloc());
    assert_probes(&rt, journal.probes()?.as_slice());
    Ok(())
}

// Member 2 was probed in every other period.
fn assert_probes<R: Abort>(rt: &R, probes: &[Probed]) {
    let mut number = 1;
    for probed in probes {
        assert_same(rt, &(probed.member, probed.number), &(id(2), number));
        number = number.wrapping_add(2);
    }
    assert_same(rt, &probes.len(), &(TIMES as usize));
}
