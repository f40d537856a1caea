use super::steps::{Step, knows, take_steps};
use super::*;
use swim_history::Refusal;

// The detector that goes on after one of this opening which was called so takes these steps.
fn assert_later<R: Abort>(rt: &R, alloc: Global, opening: Opening, calls: &[Call], steps: &[Step]) {
    let mut second = later(rt, alloc, opening, calls);
    take_steps(rt, &mut second, steps);
}

fn later<R: Abort>(rt: &R, alloc: Global, opening: Opening, calls: &[Call]) -> Recorder<Scripted> {
    let mut first = opened(alloc, opening, 1000);
    call_each(rt, &mut first, calls);
    opened(alloc, Opening::after(&first.into_journal()), 1000)
}

// The same after two periods of members 2 and 3, by the first of which member 2 was judged.
fn assert_later_by_two<R: Abort>(rt: &R, alloc: Global, steps: &[Step]) {
    let opening = opening(rt, 1, &[2, 3], 0);
    assert_later(rt, alloc, opening, &[Call::Tick; 4], steps);
}

#[test]
fn numbers_and_rows_go_on(rt: HostRuntime) {
    let steps = [
        Step::Began(2),
        Step::Told(Call::Tick, started(None, 3, 3)),
        Step::Told(Call::Tick, asked_of(3, 3, &[])),
        knows(&[failed(2, 1), up(3)]),
        Step::Told(Call::Remove(id(2)), Reply::Removed),
    ];
    assert_later_by_two(&rt, rt.alloc(), &steps);
}

#[test]
fn who_failed_stays_failed(rt: HostRuntime) {
    let steps = [Step::Began(3), knows(&[failed(2, 2), failed(3, 1)])];
    let opening = opening(&rt, 1, &[3, 2], 0);
    assert_later(&rt, rt.alloc(), opening, &[Call::Tick; 7], &steps);
}

#[test]
fn who_failed_can_be_removed(rt: HostRuntime) {
    let steps = [
        Step::Told(Call::Remove(id(2)), Reply::Removed),
        knows(&[up(3)]),
    ];
    assert_later_by_two(&rt, rt.alloc(), &steps);
}

#[test]
fn who_failed_joins_again(rt: HostRuntime) {
    let join = Call::Join(id(2), at(2));
    let steps = [Step::Told(join, Reply::Joined { place: 1 })];
    assert_later_by_two(&rt, rt.alloc(), &steps);
}

#[test]
fn a_full_table_stays_full(rt: HostRuntime) {
    let mut others = ArrayVec::<u8, 128>::new();
    for other in 2..130u8 {
        let _ = others.try_push(other);
    }
    assert_same(&rt, &others.len(), &128);
    let steps = [
        Step::Told(Call::Join(id(130), at(130)), Reply::Refused(Refusal::Full)),
        Step::Told(Call::Join(id(2), at(9)), Reply::Joined { place: 127 }),
    ];
    let opening = opening(&rt, 0, others.as_slice(), 0);
    assert_later(&rt, rt.alloc(), opening, &[Call::Tick; 4], &steps);
}

#[test]
fn an_aim_is_left_behind(rt: HostRuntime) {
    let steps = [Step::Told(Call::Tick, started(None, 2, 2))];
    let opening = opening(&rt, 1, &[2], 0);
    assert_later(&rt, rt.alloc(), opening, &[Call::Tick], &steps);
}

#[test]
fn the_last_number_stays_the_last(rt: HostRuntime) {
    let steps = [Step::Told(Call::Tick, Reply::Refused(Refusal::Spent))];
    let opening = opening(&rt, 1, &[2], u64::MAX - 1);
    assert_later(&rt, rt.alloc(), opening, &[Call::Tick], &steps);
}

// The detector that goes on after these calls knows the members and the last number of the one before.
fn assert_goes_on<R: Abort>(rt: &R, alloc: Global, calls: &[Call]) {
    let mut first = opened(alloc, opening(rt, 1, &[2, 3], 0), 1000);
    call_each(rt, &mut first, calls);
    let table = first.table();
    let journal = first.into_journal();
    let second = opened(alloc, Opening::after(&journal), 1000);
    assert_same(rt, &second.table().as_slice(), &table.as_slice());
    assert_same(
        rt,
        &second.journal().opening().last(),
        &journal.last_number(),
    );
}

#[test]
fn a_journal_may_end_anywhere(rt: HostRuntime) {
    let calls = [
        Call::Tick,
        Call::Tick,
        Call::Tick,
        Call::Tick,
        Call::Join(id(4), at(4)),
        Call::Tick,
        Call::Join(id(2), at(9)),
        Call::Tick,
        Call::Tick,
        Call::Remove(id(3)),
        Call::Tick,
        Call::Tick,
    ];
    for count in 0..calls.len() {
        assert_goes_on(&rt, rt.alloc(), &calls[..count]);
    }
}

// The detector that goes on after one has its version.
#[test]
fn the_version_goes_on(rt: HostRuntime) {
    for version in [Version::One, Version::Two] {
        assert_version_goes_on(&rt, rt.alloc(), version);
    }
}

fn assert_version_goes_on<R: Abort>(rt: &R, alloc: Global, version: Version) {
    let mut first = opened(alloc, opening_in(rt, 1, &[2, 3], 0, version), 100);
    call_each(rt, &mut first, &[Call::Tick; 4]);
    let later = Opening::after(&first.into_journal());
    assert_same(rt, &later.version(), &version);
}
