use crate::rows::{assert_same, failed, id, peer, period, up};
use std::process::Abort;
use swim_history::Row;
use swim_rejoin::Knocker;
use swim_wire::{Kind, Message, Version};

// Whom a start knocks at, as a number, and 0 where it knocks at nobody.
fn knocked(knocker: &mut Knocker, rejoin: u16, rows: &[Row], number: u64) -> u32 {
    match knocker.start(rejoin, rows, period(number)) {
        Some(knock) => knock.message.target.get(),
        None => 0,
    }
}

// A start while each `rejoin`-th one has a knock knocks at that member.
fn assert_knocked<R: Abort>(
    rt: &R,
    knocker: &mut Knocker,
    rejoin: u16,
    rows: &[Row],
    number: u64,
    whom: u32,
) {
    assert_eq!(rt; knocked(knocker, rejoin, rows, number), whom, "at {number}");
}

#[test]
fn each_third_start_knocks_in_turn(rt: HostRuntime) {
    let rows = [failed(2, 9), failed(4, 8), up(5), failed(7, 3)];
    let mut knocker = Knocker::new(id(1), Version::One);
    let expected = [0, 0, 2, 0, 0, 4, 0, 0, 7, 0, 0, 2, 0, 0, 4];
    let mut number = 10u64;
    for whom in expected {
        assert_knocked(&rt, &mut knocker, 3, &rows, number, whom);
        number = number.saturating_add(1);
    }
}

#[test]
fn each_start_knocks(rt: HostRuntime) {
    let rows = [failed(2, 9), failed(4, 8)];
    let mut knocker = Knocker::new(id(1), Version::One);
    assert_knocked(&rt, &mut knocker, 1, &rows, 10, 2);
    assert_knocked(&rt, &mut knocker, 1, &rows, 11, 4);
    assert_knocked(&rt, &mut knocker, 1, &rows, 12, 2);
}

#[test]
fn no_start_knocks_where_rejoin_is_0(rt: HostRuntime) {
    let rows = [failed(2, 9), failed(4, 8)];
    let mut knocker = Knocker::new(id(1), Version::One);
    for number in 10..30u64 {
        assert_knocked(&rt, &mut knocker, 0, &rows, number, 0);
    }
}

#[test]
fn nobody_is_knocked_at_where_all_are_up(rt: HostRuntime) {
    let mut knocker = Knocker::new(id(1), Version::One);
    let rows = [up(2), up(4)];
    for number in 10..14u64 {
        assert_knocked(&rt, &mut knocker, 2, &rows, number, 0);
    }
    // The starts 5 and 6: the count went on.
    let rows = [up(2), failed(4, 13)];
    assert_knocked(&rt, &mut knocker, 2, &rows, 14, 0);
    assert_knocked(&rt, &mut knocker, 2, &rows, 15, 4);
}

#[test]
fn the_turn_goes_on_in_another_table(rt: HostRuntime) {
    let mut knocker = Knocker::new(id(1), Version::One);
    let rows = [failed(2, 9), failed(4, 8), failed(7, 3)];
    assert_knocked(&rt, &mut knocker, 1, &rows, 10, 2);
    assert_knocked(&rt, &mut knocker, 1, &rows, 11, 4);
    // Member 4 is gone, and 3 and 6 failed: 6 comes next.
    let rows = [failed(2, 9), failed(3, 11), failed(6, 10), failed(7, 3)];
    assert_knocked(&rt, &mut knocker, 1, &rows, 12, 6);
    assert_knocked(&rt, &mut knocker, 1, &rows, 13, 7);
    assert_knocked(&rt, &mut knocker, 1, &rows, 14, 2);
    assert_knocked(&rt, &mut knocker, 1, &rows, 15, 3);
    // All but 2 are up.
    let rows = [failed(2, 9), up(3), up(6), up(7)];
    assert_knocked(&rt, &mut knocker, 1, &rows, 16, 2);
    assert_knocked(&rt, &mut knocker, 1, &rows, 17, 2);
}

// Each start comes with the rule that is in force, and knocks at that member, or at nobody.
fn assert_ruled<R: Abort>(rt: &R, starts: &[(u16, u32)]) {
    let rows = [failed(2, 9), failed(4, 8), failed(7, 3)];
    let mut knocker = Knocker::new(id(1), Version::One);
    let mut number = 10u64;
    for (rejoin, whom) in starts {
        assert_knocked(rt, &mut knocker, *rejoin, &rows, number, *whom);
        number = number.saturating_add(1);
    }
}

#[test]
fn after_a_0_the_starts_are_counted_anew(rt: HostRuntime) {
    // Of the first three starts the third has a knock; the 0 comes behind two more that were counted.
    assert_ruled(
        &rt,
        &[
            (3, 0),
            (3, 0),
            (3, 2),
            (3, 0),
            (3, 0),
            (0, 0),
            (3, 0),
            (3, 0),
            (3, 4),
            (3, 0),
        ],
    );
    assert_ruled(
        &rt,
        &[(0, 0), (0, 0), (0, 0), (1, 2), (1, 4), (0, 0), (1, 7)],
    );
}

#[test]
fn a_lower_rule_is_due_at_once(rt: HostRuntime) {
    // Of five starts none was due: with a rule of 3 the next one is, and then each third.
    assert_ruled(
        &rt,
        &[
            (9, 0),
            (9, 0),
            (9, 0),
            (9, 0),
            (9, 0),
            (3, 2),
            (3, 0),
            (3, 0),
            (3, 4),
        ],
    );
}

#[test]
fn with_a_higher_rule_the_starts_count_that_came(rt: HostRuntime) {
    assert_ruled(
        &rt,
        &[(2, 0), (2, 2), (2, 0), (4, 0), (4, 0), (4, 4), (4, 0)],
    );
}

#[test]
fn a_knock_is_a_ping_of_its_own(rt: HostRuntime) {
    let mut knocker = Knocker::new(id(9), Version::Two);
    let knock = knocker.start(1, &[up(2), failed(4, 8)], period(77));
    let expected = Message {
        version: Version::Two,
        kind: Kind::Ping,
        sender: id(9),
        initiator: id(9),
        target: id(4),
        number: period(77),
        at: None,
    };
    match knock {
        Some(knock) => {
            assert_same(&rt, &knock.peer, &peer(4));
            assert_same(&rt, &knock.message, &expected);
        }
        None => panic!(rt; "a knock"),
    }
}
