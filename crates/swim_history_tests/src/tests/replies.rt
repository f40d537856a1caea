use super::{address, assert_same, id, opening};
use arrayvec::ArrayVec;
use std::process::Abort;
use swim_history::*;
use swim_wire::{Kind, Message, Peer, PeriodNumber, Version};

// This member's message of its probe of member 2 in its period 9.
fn own(kind: Kind) -> Message {
    Message {
        version: Version::One,
        kind,
        sender: id(1),
        initiator: id(1),
        target: id(2),
        number: PeriodNumber::new(9).unwrap_or_default(),
        at: None,
    }
}

#[test]
fn numbers_reasons(rt: HostRuntime) {
    let faults = [
        (OpeningFault::Relays, 1),
        (OpeningFault::Timing, 2),
        (OpeningFault::TooManyRows, 3),
        (OpeningFault::Myself, 4),
        (OpeningFault::Twice, 5),
    ];
    for (fault, number) in faults {
        assert_same(&rt, &fault.number(), &number);
    }
    let drops = [
        (DropReason::NotForMe, 1),
        (DropReason::Borrowed, 2),
        (DropReason::AboutMe, 3),
        (DropReason::Unlisted, 4),
        (DropReason::TableFull, 5),
        (DropReason::Stray, 6),
        (DropReason::NoRequest, 7),
    ];
    for (reason, number) in drops {
        assert_same(&rt, &reason.number(), &number);
    }
    let refusals = [
        (Refusal::Myself, 1),
        (Refusal::Listed, 2),
        (Refusal::Full, 3),
        (Refusal::Unknown, 4),
        (Refusal::Spent, 5),
    ];
    for (refusal, number) in refusals {
        assert_same(&rt, &refusal.number(), &number);
    }
}

// A detector whose last number is 8 sends these for the reply.
fn assert_sends<R: Abort>(rt: &R, reply: &Reply, expected: &[(Peer, Message)]) {
    let opening = opening(rt, 8);
    assert_same(rt, &sends(reply, &opening).as_slice(), &expected);
}

// A start that probes member 2 in the period of that number.
fn probing(number: u64) -> Reply {
    Reply::Started {
        judged: None,
        probe: Some(Probe {
            target: id(2),
            peer: address(2),
            number,
        }),
    }
}

#[test]
fn sends_pings_at_starts(rt: HostRuntime) {
    assert_sends(&rt, &probing(9), &[(address(2), own(Kind::Ping))]);
    assert_sends(&rt, &probing(0), &[]);
    let idle = Reply::Started {
        judged: Some(id(2)),
        probe: None,
    };
    assert_sends(&rt, &idle, &[]);
}

// Members 4 and 3 are asked to ping member 2.
fn asking() -> Reply {
    let mut relays = ArrayVec::new();
    relays.push(Relay {
        id: id(4),
        peer: address(4),
    });
    relays.push(Relay {
        id: id(3),
        peer: address(3),
    });
    Reply::Asked {
        target: id(2),
        peer: address(2),
        number: 9,
        relays,
    }
}

#[test]
fn sends_what_replies_say(rt: HostRuntime) {
    let requests = [
        (address(4), own(Kind::PingReq)),
        (address(3), own(Kind::PingReq)),
    ];
    assert_sends(&rt, &asking(), &requests);
    let answer = Reply::Send {
        peer: address(7),
        message: own(Kind::Ack),
    };
    assert_sends(&rt, &answer, &[(address(7), own(Kind::Ack))]);
    assert_sends(&rt, &Reply::Quiet, &[]);
}

// This member's message of version 2 of its probe of member 2 in its period 1. A ping-req tells where that one is.
fn own_of_version_2(kind: Kind) -> Message {
    Message {
        version: Version::Two,
        kind,
        sender: id(1),
        initiator: id(1),
        target: id(2),
        number: PeriodNumber::new(1).unwrap_or_default(),
        at: Version::Two.carries(kind).then_some(address(2)),
    }
}

// A detector whose own messages are of version 2 sends this one alone for the reply.
fn assert_sends_in_version_2<R: Abort>(rt: &R, reply: &Reply, peer: Peer, message: Message) {
    let members = [(id(2), address(2)), (id(3), address(3))];
    match Opening::check(id(1), 1, 1, 3, &members, 0, Version::Two) {
        Ok(opening) => assert_same(
            rt,
            &sends(reply, &opening).as_slice(),
            &[(peer, message)].as_slice(),
        ),
        Err(_) => panic!(rt; "an opening"),
    }
}

// Member 3 is asked to ping member 2.
fn asking_3() -> Reply {
    let mut relays = ArrayVec::new();
    relays.push(Relay {
        id: id(3),
        peer: address(3),
    });
    Reply::Asked {
        target: id(2),
        peer: address(2),
        number: 1,
        relays,
    }
}

#[test]
fn sends_its_own_in_version_2(rt: HostRuntime) {
    let ping = own_of_version_2(Kind::Ping);
    assert_same(&rt, &ping.at, &None);
    assert_sends_in_version_2(&rt, &probing(1), address(2), ping);
    let request = own_of_version_2(Kind::PingReq);
    assert_same(&rt, &request.at, &Some(address(2)));
    assert_sends_in_version_2(&rt, &asking_3(), address(3), request);
}

// What is sent for another member is sent as it is, whatever the own version.
#[test]
fn sends_others_as_they_are(rt: HostRuntime) {
    let ack = own(Kind::Ack);
    let answer = Reply::Send {
        peer: address(7),
        message: ack,
    };
    assert_sends_in_version_2(&rt, &answer, address(7), ack);
}
