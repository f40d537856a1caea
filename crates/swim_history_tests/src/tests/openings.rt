ghost use Rattle.std.specs.Prelude.{◌<◌, ◌≤◌};

use super::{address, assert_same, id};
use arrayvec::ArrayVec;
use std::process::Abort;
use std::test::Fail;
use swim_history::*;
use swim_wire::{Id, Peer, Version};

fn member(number: u8) -> (Id, Peer)
    requires { 0 < number }
{
    (id(u32::from(number)), address(number))
}

// Member 1 can't begin so: the first fault has this number.
fn assert_fault<R: Abort>(
    rt: &R,
    k: u32,
    rtt: u32,
    period: u32,
    members: &[(Id, Peer)],
    number: u8,
) {
    match Opening::check(id(1), k, rtt, period, members, 0, Version::One) {
        Ok(_) => panic!(rt; "fault {number}"),
        Err(fault) => assert_same(rt, &fault.number(), &number),
    }
}

#[test]
fn checks_openings(rt: HostRuntime) {
    let rows = [member(2), member(3)];
    let with_me = [member(1)];
    let twice = [member(2), member(2)];
    assert_fault(&rt, 9, 1, 3, &rows, 1);
    assert_fault(&rt, 1, 0, 3, &rows, 2);
    assert_fault(&rt, 1, 2, 5, &rows, 2);
    assert_fault(&rt, 1, 1, 65536, &rows, 2);
    assert_fault(&rt, 1, 1, 3, &with_me, 4);
    assert_fault(&rt, 1, 1, 3, &twice, 5);
    assert_fault(&rt, 9, 0, 3, &twice, 1);
    assert_fault(&rt, 1, 0, 3, &twice, 2);
    assert!(rt; Opening::check(id(1), 8, 2, 6, &rows, u64::MAX, Version::Two).is_ok());
    assert!(rt; Opening::check(id(1), 0, 21845, 65535, &[], 0, Version::One).is_ok());
}

// So many members, from 2 on.
fn members(count: u8) -> ArrayVec<(Id, Peer), 129>
    requires { count ≤ 129 }
{
    let mut members = ArrayVec::new();
    for place in 0..count {
        let _ = members.try_push(member(place + 2));
    }
    members
}

#[test]
fn members_fit_up_to_128(rt: HostRuntime) {
    let most = members(128);
    assert_same(&rt, &most.len(), &128);
    assert!(rt; Opening::check(id(1), 1, 1, 3, most.as_slice(), 0, Version::One).is_ok());
    let more = members(129);
    assert_same(&rt, &more.len(), &129);
    assert_fault(&rt, 1, 1, 3, more.as_slice(), 3);
}

fn assert_copied<R: Abort>(rt: &R, opening: &Opening) {
    let copy = opening.copy();
    assert_same(rt, &copy.me(), &id(1));
    assert_same(rt, &(copy.k(), copy.rtt(), copy.period()), &(3, 2, 6));
    assert_same(rt, &copy.last(), &9);
    assert_same(rt, &copy.rows(), &opening.rows());
    assert_same(rt, &copy.version(), &Version::Two);
}

#[test]
fn copies_an_opening(rt: HostRuntime) {
    match Opening::check(id(1), 3, 2, 6, &[member(2)], 9, Version::Two) {
        Ok(opening) => assert_copied(&rt, &opening),
        Err(_) => panic!(rt; "an opening"),
    }
}

#[test]
fn members_that_failed(rt: HostRuntime) -> Result<(), Fail> {
    let members = [member(2), member(3)];
    let opening = match Opening::check(id(1), 1, 1, 3, &members, 9, Version::Two) {
        Ok(opening) => opening,
        Err(_) => return Err("the parameters are within the limits".into()),
    };
    assert_not_failed(&rt, &opening);
    let failed = opening.with_failed(id(3), 9).ok_or("a period 9 was used")?;
    assert_failed(&rt, &failed);
    Ok(())
}

fn assert_failed<R: Abort>(rt: &R, opening: &Opening) {
    match opening.rows() {
        [second, third] => {
            assert_same(rt, &second.state, &RowState::Up);
            assert_same(rt, &third.state, &RowState::Failed(9));
            assert_same(rt, &third.peer, &address(3));
        }
        _ => panic!(rt; "two rows"),
    }
    assert_same(rt, &opening.last(), &9);
    assert_same(rt, &opening.version(), &Version::Two);
}

// Nobody failed in these periods.
fn assert_not_failed<R: Abort>(rt: &R, opening: &Opening) {
    assert!(rt; opening.with_failed(id(2), 0).is_none());
    assert!(rt; opening.with_failed(id(2), 10).is_none());
    assert!(rt; opening.with_failed(id(4), 9).is_none());
    assert!(rt; opening.with_failed(id(1), 9).is_none());
}
