use std::fmt::Debug;
use std::process::Abort;
use std::test::*;
use swim_relays::{Key, Relays, TableFull};
use swim_wire::{Id, Peer, PeriodNumber, Version};

// The two are the same. A call of this is proved at once, and an `assert_eq!` in some seconds.
fn assert_same<T: PartialEq + Debug, R: Abort>(rt: &R, left: &T, right: &T) {
    assert_eq!(rt; *left, *right);
}

// The probe that member 2 began of member 3 in its period of that number.
fn key_of(number: u64) -> Key {
    Key {
        initiator: Id::new(2).unwrap_or_default(),
        target: Id::new(3).unwrap_or_default(),
        number: PeriodNumber::new(number).unwrap_or_default(),
    }
}

// Where who asks is at first, and where it asks from later.
const FIRST: Peer = Peer {
    ip: [10, 0, 0, 2],
    port: 7000,
};

const LATER: Peer = Peer {
    ip: [10, 0, 0, 2],
    port: 7001,
};

#[test]
fn a_request_waits_for_a_period(rt: HostRuntime) {
    let mut relays = Relays::new(3);
    let key = key_of(1);
    assert_same(&rt, &relays.ask(key, FIRST, Version::One), &Ok(()));
    for waits in [true, true, false] {
        relays.tick();
        assert_same(&rt, &relays.waits(&key), &waits);
    }
    assert!(rt; relays.is_empty());
    assert_same(&rt, &relays.answer(&key), &None);
}

#[test]
fn a_request_is_asked_again(rt: HostRuntime) {
    let mut relays = Relays::new(3);
    let key = key_of(1);
    assert_same(&rt, &relays.ask(key, FIRST, Version::One), &Ok(()));
    relays.tick();
    relays.tick();
    assert_same(&rt, &relays.ask(key, LATER, Version::One), &Ok(()));
    assert_same(&rt, &relays.len(), &1);
    relays.tick();
    relays.tick();
    assert_same(&rt, &relays.answer(&key), &Some((LATER, Version::One)));
    assert_same(&rt, &relays.answer(&key), &None);
}

#[test]
fn at_most_64_wait(rt: HostRuntime) {
    let mut relays = Relays::new(65535);
    for number in 1..65 {
        assert_same(
            &rt,
            &relays.ask(key_of(number), FIRST, Version::One),
            &Ok(()),
        );
    }
    assert_same(
        &rt,
        &relays.ask(key_of(65), FIRST, Version::One),
        &Err(TableFull),
    );
    assert_same(&rt, &relays.len(), &64);
    assert_same(&rt, &relays.ask(key_of(7), FIRST, Version::One), &Ok(()));
    assert_same(&rt, &relays.len(), &64);
    assert_same(
        &rt,
        &relays.answer(&key_of(1)),
        &Some((FIRST, Version::One)),
    );
    assert_same(&rt, &relays.ask(key_of(65), FIRST, Version::One), &Ok(()));
}

#[test]
fn ticks_are_counted_past_the_greatest_count(rt: HostRuntime) {
    let mut relays = Relays::starting(3, 4294967294);
    let key = key_of(1);
    assert_same(&rt, &relays.due(), &None);
    assert_same(&rt, &relays.ask(key, FIRST, Version::One), &Ok(()));
    assert_same(&rt, &relays.due(), &Some(1));
    relays.tick();
    relays.tick();
    assert_same(&rt, &relays.due(), &Some(1));
    assert_same(&rt, &relays.len(), &1);
    relays.tick();
    assert_same(&rt, &relays.len(), &0);
    assert_same(&rt, &relays.due(), &None);
    assert_same(&rt, &relays.ask(key, FIRST, Version::One), &Ok(()));
    relays.tick();
    assert_same(&rt, &relays.ask(key, LATER, Version::One), &Ok(()));
    relays.tick();
    relays.tick();
    assert_same(&rt, &relays.answer(&key), &Some((LATER, Version::One)));
}

#[test]
fn a_request_that_is_asked_again_is_due_later(rt: HostRuntime) {
    let mut relays = Relays::starting(3, 1);
    let key = key_of(1);
    assert_same(&rt, &relays.ask(key, FIRST, Version::One), &Ok(()));
    relays.tick();
    assert_same(&rt, &relays.ask(key, LATER, Version::One), &Ok(()));
    assert_same(&rt, &relays.due(), &Some(5));
    relays.tick();
    relays.tick();
    assert_same(&rt, &relays.answer(&key), &Some((LATER, Version::One)));
}

// Each waiting request has its version, and asking again replaces it as it replaces the address.
#[test]
fn an_ack_goes_back_in_the_last_version(rt: HostRuntime) {
    for (first, last) in [
        (Version::One, Version::Two),
        (Version::Two, Version::One),
        (Version::Two, Version::Two),
    ] {
        let mut relays = Relays::new(3);
        assert_same(&rt, &relays.ask(key_of(1), FIRST, first), &Ok(()));
        assert_same(&rt, &relays.ask(key_of(2), FIRST, first), &Ok(()));
        assert_same(&rt, &relays.ask(key_of(1), FIRST, last), &Ok(()));
        assert_same(&rt, &relays.len(), &2);
        assert_same(&rt, &relays.answer(&key_of(1)), &Some((FIRST, last)));
        assert_same(&rt, &relays.answer(&key_of(2)), &Some((FIRST, first)));
        assert!(rt; relays.is_empty());
    }
}
