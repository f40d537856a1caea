use arrayvec::ArrayVec;
use std::fmt::Debug;
use std::process::Abort;
use std::test::Fail;
use swim_fence::Fence;
use swim_wire::{KNOWN_MEMBERS, Peer};

// The two are the same. A call of this is proved at once, and an `assert_eq!` in some seconds.
fn assert_same<T: PartialEq + Debug, R: Abort>(rt: &R, left: &T, right: &T) {
    assert_eq!(rt; *left, *right);
}

// A second in nanoseconds.
const SECOND: u64 = 1_000_000_000;

// The address of a member by the last octet.
fn member(octet: u8) -> Peer {
    Peer {
        ip: [10, 0, 0, octet],
        port: 7000,
    }
}

// How many of so many datagrams from an address pass that ask at that time.
fn passed(fence: &mut Fence, from: &Peer, now: u64, asks: u32) -> u32 {
    let mut passed = 0u32;
    for _ask in 0..asks {
        passed = passed.saturating_add(u32::from(fence.admits(from, now)));
    }
    passed
}

#[test]
fn a_seconds_datagrams_pass_at_once(rt: HostRuntime) {
    let mut fence = Fence::new(10);
    fence.list(&[member(2)]);
    assert_same(&rt, &passed(&mut fence, &member(2), 5 * SECOND, 25), &10);
    assert_same(
        &rt,
        &passed(&mut fence, &member(2), 5 * SECOND + SECOND / 2, 25),
        &5,
    );
    assert_same(&rt, &passed(&mut fence, &member(2), 60 * SECOND, 25), &10);
}

#[test]
fn nothing_is_rounded(rt: HostRuntime) {
    let mut fence = Fence::new(3);
    assert_same(&rt, &passed(&mut fence, &member(2), 0, 9), &3);
    assert!(rt; !fence.admits(&member(2), 333_333_333));
    assert!(rt; fence.admits(&member(2), 333_333_334));
    assert!(rt; !fence.admits(&member(2), 666_666_666));
    assert!(rt; fence.admits(&member(2), 666_666_667));
}

#[test]
fn a_flood_pushes_nobody_out(rt: HostRuntime) {
    let mut fence = Fence::new(10);
    fence.list(&[member(2), member(3)]);
    assert_same(&rt, &passed(&mut fence, &member(9), 0, 99), &10);
    assert_same(&rt, &passed(&mut fence, &member(2), 0, 99), &10);
    assert_same(&rt, &passed(&mut fence, &member(3), 0, 99), &10);
}

#[test]
fn strangers_share_a_bucket(rt: HostRuntime) {
    let mut fence = Fence::new(10);
    fence.list(&[member(2)]);
    assert_same(&rt, &passed(&mut fence, &member(8), 0, 6), &6);
    assert_same(&rt, &passed(&mut fence, &member(9), 0, 6), &4);
    let other_port = Peer {
        ip: [10, 0, 0, 2],
        port: 7001,
    };
    assert_same(&rt, &passed(&mut fence, &other_port, 0, 6), &0);
}

#[test]
fn a_member_that_stays_keeps_its_bucket(rt: HostRuntime) {
    let mut fence = Fence::new(10);
    fence.list(&[member(2), member(3)]);
    assert_same(&rt, &passed(&mut fence, &member(2), 0, 7), &7);
    fence.list(&[member(4), member(2)]);
    assert_same(&rt, &passed(&mut fence, &member(2), 0, 9), &3);
    assert_same(&rt, &passed(&mut fence, &member(4), 0, 99), &10);
    assert_same(&rt, &passed(&mut fence, &member(3), 0, 8), &8);
    assert_same(&rt, &passed(&mut fence, &member(9), 0, 8), &2);
}

#[test]
fn a_member_that_comes_back_begins_anew(rt: HostRuntime) {
    let mut fence = Fence::new(10);
    fence.list(&[member(2)]);
    assert_same(&rt, &passed(&mut fence, &member(2), 0, 99), &10);
    fence.list(&[]);
    fence.list(&[member(2)]);
    assert_same(&rt, &passed(&mut fence, &member(2), 0, 99), &10);
}

#[test]
fn a_clock_that_is_set_back_gives_nothing(rt: HostRuntime) {
    let mut fence = Fence::new(10);
    assert_same(&rt, &passed(&mut fence, &member(2), 9 * SECOND, 99), &10);
    assert_same(&rt, &passed(&mut fence, &member(2), 3 * SECOND, 99), &0);
    assert_same(&rt, &passed(&mut fence, &member(2), 9 * SECOND, 99), &0);
    assert_same(&rt, &passed(&mut fence, &member(2), 10 * SECOND, 99), &10);
}

#[test]
fn with_a_rate_of_0_all_pass(rt: HostRuntime) {
    let mut fence = Fence::new(0);
    fence.list(&[member(2)]);
    assert_same(&rt, &passed(&mut fence, &member(2), 0, 99), &99);
    assert_same(&rt, &passed(&mut fence, &member(9), 0, 99), &99);
}

#[test]
fn the_greatest_rate_and_the_latest_time(rt: HostRuntime) {
    let mut fence = Fence::new(u32::MAX);
    assert_same(&rt, &passed(&mut fence, &member(2), 0, 999), &999);
    assert_same(&rt, &passed(&mut fence, &member(2), u64::MAX, 999), &999);
}

#[test]
fn each_of_128_members_has_a_bucket(rt: HostRuntime) {
    let mut fence = Fence::new(2);
    let mut members = ArrayVec::<Peer, KNOWN_MEMBERS>::new();
    for octet in 0..128u8 {
        let _ = members.try_push(member(octet));
    }
    fence.list(members.as_slice());
    for octet in 0..128u8 {
        assert_eq!(rt; passed(&mut fence, &member(octet), 0, 5), 2, "{octet}");
    }
    assert_same(&rt, &passed(&mut fence, &member(200), 0, 5), &2);
    assert_same(&rt, &passed(&mut fence, &member(201), 0, 5), &0);
}
