use crate::rows::{ack, failed, id, peer, period, rejoiner, up};
use std::process::Abort;
use swim_rejoin::Rejoiner;

// Whether that member would be joined if its ack of the knock in that period came now.
fn is_joined(rejoiner: &Rejoiner, member: u8, number: u64) -> bool {
    rejoiner
        .believes(&ack(member, number), &peer(member))
        .is_some()
}

// A rejoiner of member 1 that knocks at each start. Member 3 was judged in period 20 and joined again in period 23.
fn joined_in_23() -> Rejoiner {
    let mut rejoiner = rejoiner(1);
    rejoiner.looked_at(&[failed(3, 20)]);
    rejoiner.joined(id(3), 23);
    rejoiner.looked_at(&[up(3)]);
    rejoiner
}

// Member 3 was judged in that period, and is knocked at from then on: it waits for exactly so many knocks, each of
// which comes in a period of its own. The last of these periods.
fn waits(rt: &impl Abort, rejoiner: &mut Rejoiner, verdict: u64, knocks: u64) -> u64 {
    rejoiner.looked_at(&[failed(3, verdict)]);
    let mut number = verdict;
    for _knock in 0..knocks {
        assert!(rt; !is_joined(rejoiner, 3, number), "{number} is too early");
        number = number.saturating_add(1);
        rejoiner.knocked(id(3), period(number));
    }
    assert!(rt; is_joined(rejoiner, 3, number), "{number} is late enough");
    number
}

#[test]
fn who_is_judged_first_waits_for_one_knock(rt: HostRuntime) {
    let mut rejoiner = rejoiner(1);
    waits(&rt, &mut rejoiner, 20, 1);
}

#[test]
fn within_16_periods_is_soon(rt: HostRuntime) {
    waits(&rt, &mut joined_in_23(), 24, 2);
    waits(&rt, &mut joined_in_23(), 39, 2);
    waits(&rt, &mut joined_in_23(), 40, 1);
}

#[test]
fn waits_double_up_to_64(rt: HostRuntime) {
    let mut rejoiner = joined_in_23();
    let mut verdict = 30u64;
    for knocks in [2, 4, 8, 16, 32, 64, 64, 64] {
        let number = waits(&rt, &mut rejoiner, verdict, knocks);
        rejoiner.joined(id(3), number);
        rejoiner.looked_at(&[up(3)]);
        verdict = number.saturating_add(5);
    }
}

#[test]
fn a_verdict_that_stands_is_counted_once(rt: HostRuntime) {
    let mut rejoiner = joined_in_23();
    rejoiner.looked_at(&[failed(3, 30)]);
    rejoiner.looked_at(&[failed(3, 30)]);
    rejoiner.looked_at(&[up(2), failed(3, 30)]);
    waits(&rt, &mut rejoiner, 30, 2);
}

#[test]
fn a_verdict_that_is_neither_soon_nor_late_leaves_the_wait(rt: HostRuntime) {
    let mut rejoiner = joined_in_23();
    waits(&rt, &mut rejoiner, 30, 2);
    rejoiner.joined(id(3), 32);
    rejoiner.looked_at(&[up(3)]);
    // 17 periods after the join.
    waits(&rt, &mut rejoiner, 49, 2);
    rejoiner.joined(id(3), 51);
    rejoiner.looked_at(&[up(3)]);
    // 6 periods after the join.
    waits(&rt, &mut rejoiner, 57, 4);
}

#[test]
fn quiet_of_256_periods_sets_the_wait_back(rt: HostRuntime) {
    // The periods 33 to 288 are 256, and no verdict falls in them.
    let mut rejoiner = joined_in_23();
    waits(&rt, &mut rejoiner, 30, 2);
    rejoiner.joined(id(3), 32);
    rejoiner.looked_at(&[up(3)]);
    waits(&rt, &mut rejoiner, 289, 1);

    // The periods 33 to 287 are 255.
    let mut rejoiner = joined_in_23();
    waits(&rt, &mut rejoiner, 30, 2);
    rejoiner.joined(id(3), 32);
    rejoiner.looked_at(&[up(3)]);
    waits(&rt, &mut rejoiner, 288, 2);
}

#[test]
fn the_wait_itself_is_no_quiet(rt: HostRuntime) {
    // It is failed for 400 periods, and judged again 5 periods after it was joined again.
    let mut rejoiner = joined_in_23();
    waits(&rt, &mut rejoiner, 30, 2);
    rejoiner.joined(id(3), 430);
    rejoiner.looked_at(&[up(3)]);
    waits(&rt, &mut rejoiner, 435, 4);
}

#[test]
fn a_verdict_after_an_operators_join_is_no_quiet(rt: HostRuntime) {
    // An operator joins it again in period 31 and it is judged in period 250: the wait is not set back in 300.
    let mut rejoiner = joined_in_23();
    rejoiner.looked_at(&[failed(3, 30)]);
    rejoiner.looked_at(&[up(3)]);
    rejoiner.looked_at(&[failed(3, 250)]);
    rejoiner.looked_at(&[up(3)]);
    waits(&rt, &mut rejoiner, 300, 2);
}

#[test]
fn an_operators_join_makes_nobody_wait(rt: HostRuntime) {
    let mut rejoiner = rejoiner(1);
    rejoiner.looked_at(&[failed(3, 20)]);
    rejoiner.looked_at(&[up(3)]);
    waits(&rt, &mut rejoiner, 25, 1);
}

#[test]
fn knocks_before_the_verdict_do_not_count(rt: HostRuntime) {
    let mut rejoiner = rejoiner(1);
    rejoiner.looked_at(&[failed(3, 20)]);
    rejoiner.knocked(id(3), period(21));
    rejoiner.knocked(id(3), period(22));
    rejoiner.joined(id(3), 23);
    rejoiner.looked_at(&[up(3)]);
    waits(&rt, &mut rejoiner, 30, 2);
}

#[test]
fn who_was_removed_begins_anew(rt: HostRuntime) {
    let mut rejoiner = joined_in_23();
    waits(&rt, &mut rejoiner, 30, 2);
    rejoiner.joined(id(3), 32);
    rejoiner.looked_at(&[up(2)]);
    waits(&rt, &mut rejoiner, 40, 1);
}

#[test]
fn after_a_0_each_member_waits_as_at_first(rt: HostRuntime) {
    let mut rejoiner = joined_in_23();
    waits(&rt, &mut rejoiner, 30, 2);
    rejoiner.joined(id(3), 32);
    rejoiner.rule(0);
    rejoiner.rule(1);
    waits(&rt, &mut rejoiner, 40, 1);
}

#[test]
fn each_member_has_its_own_wait(rt: HostRuntime) {
    let mut rejoiner = rejoiner(1);
    rejoiner.looked_at(&[failed(2, 19), failed(3, 20)]);
    rejoiner.joined(id(2), 23);
    rejoiner.joined(id(3), 24);
    rejoiner.looked_at(&[up(2), up(3)]);
    rejoiner.looked_at(&[up(2), failed(3, 30)]);
    rejoiner.knocked(id(3), period(31));
    rejoiner.looked_at(&[failed(2, 60), failed(3, 30)]);
    rejoiner.knocked(id(2), period(61));
    assert!(rt; is_joined(&rejoiner, 2, 61));
    assert!(rt; !is_joined(&rejoiner, 3, 31));
    rejoiner.knocked(id(3), period(62));
    assert!(rt; is_joined(&rejoiner, 3, 62));
}
