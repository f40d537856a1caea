//! What a call would change, told before it is made.

use super::steps::{Step, assert_steps, take_steps};
use super::*;
use swim_history::{Change, Refusal};

#[test]
fn joins_and_removals_are_told(rt: HostRuntime) {
    let steps = [
        Step::Changes(Call::Remove(id(2)), Some(Change::Gone(id(2)))),
        Step::Changes(Call::Join(id(4), at(4)), Some(Change::Up(id(4), at(4)))),
    ];
    assert_steps(&rt, rt.alloc(), 1, &[2, 3], &steps);
}

// These would be refused.
#[test]
fn who_cannot_join_or_leave_changes_nothing(rt: HostRuntime) {
    let steps = [
        Step::Changes(Call::Join(id(1), at(1)), None),
        Step::Changes(Call::Join(id(2), at(9)), None),
        Step::Changes(Call::Remove(id(1)), None),
        Step::Changes(Call::Remove(id(9)), None),
    ];
    assert_steps(&rt, rt.alloc(), 1, &[2, 3], &steps);
}

#[test]
fn a_start_would_judge(rt: HostRuntime) {
    let steps = [
        Step::Ticks(2),
        Step::Changes(Call::Tick, None),
        Step::Ticks(1),
        Step::Changes(Call::Tick, Some(Change::Failed(id(2), 1))),
    ];
    assert_steps(&rt, rt.alloc(), 1, &[2, 3], &steps);
}

// The start that would judge is refused, as there is no number for its period.
#[test]
fn no_start_judges_when_numbers_are_used_up(rt: HostRuntime) {
    let steps = [
        Step::Ticks(3),
        Step::Told(Call::Tick, Reply::Refused(Refusal::Spent)),
        Step::Changes(Call::Tick, None),
    ];
    let mut recorder = opened(rt.alloc(), opening(&rt, 1, &[2], u64::MAX - 1), 9);
    take_steps(&rt, &mut recorder, &steps);
}
