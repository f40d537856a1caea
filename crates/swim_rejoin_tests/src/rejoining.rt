use crate::rows::{ack, assert_same, failed, id, message, peer, period, rejoiner, up};
use std::process::Abort;
use swim_history::Row;
use swim_rejoin::Rejoiner;
use swim_wire::{Kind, Message, Peer};

// A rejoiner of member 1, whose table shows member 2 as up and member 3 as failed in period 20, and who knocked at 3 in
// the periods 21 and 24.
fn waiting() -> Rejoiner {
    let mut rejoiner = rejoiner(3);
    rejoiner.looked_at(&[up(2), failed(3, 20)]);
    rejoiner.knocked(id(3), period(21));
    rejoiner.knocked(id(3), period(24));
    rejoiner
}

// Who is joined after that message, as a number, and 0 for nobody.
fn joined(rejoiner: &Rejoiner, message: &Message, from: Peer) -> u32 {
    match rejoiner.believes(message, &from) {
        Some(row) => row.id.get(),
        None => 0,
    }
}

fn assert_joined<R: Abort>(rt: &R, rejoiner: &Rejoiner, message: &Message, from: Peer, whom: u32) {
    assert_same(rt, &joined(rejoiner, message, from), &whom);
}

#[test]
fn an_ack_of_a_knock_is_believed(rt: HostRuntime) {
    let rejoiner = waiting();
    let believed: Option<Row> = rejoiner.believes(&ack(3, 24), &peer(3));
    assert_same(&rt, &believed, &Some(failed(3, 20)));
    assert_joined(&rt, &rejoiner, &ack(3, 21), peer(3), 3);
}

#[test]
fn an_ack_of_no_knock_is_not(rt: HostRuntime) {
    let rejoiner = waiting();
    assert_joined(&rt, &rejoiner, &ack(3, 20), peer(3), 0);
    assert_joined(&rt, &rejoiner, &ack(3, 22), peer(3), 0);
    assert_joined(&rt, &rejoiner, &ack(3, 25), peer(3), 0);
}

#[test]
fn an_ack_of_a_knock_at_another_is_not(rt: HostRuntime) {
    let mut rejoiner = waiting();
    rejoiner.looked_at(&[failed(2, 24), failed(3, 20)]);
    rejoiner.knocked(id(2), period(27));
    assert_joined(&rt, &rejoiner, &ack(3, 27), peer(3), 0);
    assert_joined(&rt, &rejoiner, &ack(2, 24), peer(2), 0);
    assert_joined(&rt, &rejoiner, &ack(2, 27), peer(2), 2);
}

#[test]
fn an_ack_of_anothers_probe_is_not(rt: HostRuntime) {
    let rejoiner = waiting();
    // Member 2 began the probe; member 2 sends the ack on; the ack is of member 2.
    let others = message(Kind::Ack, 3, 2, 3, 24);
    let relayed = message(Kind::Ack, 2, 1, 3, 24);
    let of_another = message(Kind::Ack, 3, 1, 2, 24);
    assert_joined(&rt, &rejoiner, &others, peer(3), 0);
    assert_joined(&rt, &rejoiner, &relayed, peer(3), 0);
    assert_joined(&rt, &rejoiner, &of_another, peer(3), 0);
}

#[test]
fn no_ping_is_believed(rt: HostRuntime) {
    let rejoiner = waiting();
    // Of whichever initiator and target, and with the number of a knock or another one.
    let of_a_knock = message(Kind::Ping, 3, 3, 1, 24);
    let of_another = message(Kind::Ping, 3, 3, 2, 999);
    let for_another = message(Kind::Ping, 3, 1, 3, 24);
    assert_joined(&rt, &rejoiner, &of_a_knock, peer(3), 0);
    assert_joined(&rt, &rejoiner, &of_another, peer(3), 0);
    assert_joined(&rt, &rejoiner, &for_another, peer(3), 0);
}

#[test]
fn an_ack_of_a_knock_before_the_verdict_is_not(rt: HostRuntime) {
    // It was joined again after the knock of period 24, and judged again at the end of period 57.
    let mut rejoiner = waiting();
    rejoiner.joined(id(3), 24);
    rejoiner.looked_at(&[up(2), up(3)]);
    rejoiner.looked_at(&[up(2), failed(3, 57)]);
    assert_joined(&rt, &rejoiner, &ack(3, 24), peer(3), 0);
    rejoiner.knocked(id(3), period(58));
    assert_joined(&rt, &rejoiner, &ack(3, 24), peer(3), 0);
    assert_joined(&rt, &rejoiner, &ack(3, 21), peer(3), 0);
    assert_joined(&rt, &rejoiner, &ack(3, 58), peer(3), 3);
    // The number of the verdict itself isn't above it.
    rejoiner.looked_at(&[up(2), failed(3, 58)]);
    assert_joined(&rt, &rejoiner, &ack(3, 58), peer(3), 0);
}

#[test]
fn a_request_is_not(rt: HostRuntime) {
    let rejoiner = waiting();
    let request = message(Kind::PingReq, 3, 3, 2, 24);
    assert_joined(&rt, &rejoiner, &request, peer(3), 0);
}

#[test]
fn a_stranger_is_not_believed(rt: HostRuntime) {
    let rejoiner = waiting();
    assert_joined(&rt, &rejoiner, &ack(3, 24), peer(4), 0);
    assert_joined(&rt, &rejoiner, &ack(3, 24), peer(2), 0);
    let other_port = Peer {
        ip: [10, 0, 0, 3],
        port: 7001,
    };
    assert_joined(&rt, &rejoiner, &ack(3, 24), other_port, 0);
}

#[test]
fn who_is_up_or_unknown_is_not_joined(rt: HostRuntime) {
    let mut rejoiner = waiting();
    rejoiner.knocked(id(2), period(24));
    assert_joined(&rt, &rejoiner, &ack(2, 24), peer(2), 0);
    assert_joined(&rt, &rejoiner, &ack(4, 24), peer(4), 0);
    rejoiner.looked_at(&[up(2), up(3)]);
    assert_joined(&rt, &rejoiner, &ack(3, 24), peer(3), 0);
    // The ids 3 and 259 leave the same rest.
    let ack = message(Kind::Ack, 259, 1, 259, 30);
    rejoiner.looked_at(&[
        failed(3, 20),
        Row {
            id: id(259),
            ..up(9)
        },
    ]);
    rejoiner.knocked(id(259), period(30));
    assert_joined(&rt, &rejoiner, &ack, peer(9), 0);
}

#[test]
fn the_last_64_knocks_are_remembered(rt: HostRuntime) {
    let mut rejoiner = rejoiner(1);
    rejoiner.looked_at(&[failed(3, 20)]);
    for number in 21..85u64 {
        rejoiner.knocked(id(3), period(number));
    }
    assert_joined(&rt, &rejoiner, &ack(3, 21), peer(3), 3);
    rejoiner.knocked(id(3), period(85));
    assert_joined(&rt, &rejoiner, &ack(3, 21), peer(3), 0);
    assert_joined(&rt, &rejoiner, &ack(3, 22), peer(3), 3);
    assert_joined(&rt, &rejoiner, &ack(3, 85), peer(3), 3);
}

#[test]
fn knocks_at_who_is_not_in_the_table_are_not_remembered(rt: HostRuntime) {
    let mut rejoiner = waiting();
    rejoiner.looked_at(&[up(2)]);
    rejoiner.knocked(id(3), period(27));
    rejoiner.looked_at(&[up(2), failed(3, 29)]);
    assert_joined(&rt, &rejoiner, &ack(3, 24), peer(3), 0);
    assert_joined(&rt, &rejoiner, &ack(3, 27), peer(3), 0);
    rejoiner.knocked(id(3), period(30));
    assert_joined(&rt, &rejoiner, &ack(3, 30), peer(3), 3);
}

#[test]
fn nobody_is_joined_where_rejoin_is_0(rt: HostRuntime) {
    let mut rejoiner = rejoiner(0);
    rejoiner.looked_at(&[failed(3, 20)]);
    rejoiner.knocked(id(3), period(21));
    assert_joined(&rt, &rejoiner, &ack(3, 21), peer(3), 0);
}

#[test]
fn a_0_forgets_all_that_was_known(rt: HostRuntime) {
    let mut rejoiner = waiting();
    rejoiner.rule(0);
    assert!(rt; !rejoiner.is_open());
    assert_joined(&rt, &rejoiner, &ack(3, 24), peer(3), 0);
    // The table as it was, and the knocks from before the 0: only one since then is answered.
    rejoiner.rule(3);
    assert!(rt; rejoiner.is_open());
    assert_joined(&rt, &rejoiner, &ack(3, 24), peer(3), 0);
    rejoiner.looked_at(&[up(2), failed(3, 20)]);
    assert_joined(&rt, &rejoiner, &ack(3, 24), peer(3), 0);
    rejoiner.knocked(id(3), period(27));
    assert_joined(&rt, &rejoiner, &ack(3, 27), peer(3), 3);
    assert_joined(&rt, &rejoiner, &ack(3, 21), peer(3), 0);
}

#[test]
fn another_rule_forgets_nothing(rt: HostRuntime) {
    let mut rejoiner = waiting();
    for rejoin in [1, 65_535, 3, 3] {
        rejoiner.rule(rejoin);
        assert_joined(&rt, &rejoiner, &ack(3, 24), peer(3), 3);
        assert_joined(&rt, &rejoiner, &ack(3, 21), peer(3), 3);
    }
}
