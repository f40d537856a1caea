use super::{id, order_of, scripted, targets_of};
use std::process::Abort;
use std::test::*;
use swim_targets::{JoinFault, Next, Scripted, Targets};
use swim_wire::Id;

// Members are probed in this order.
fn probes<R: Abort>(rt: &R, targets: &mut Targets, chooser: &mut Scripted, members: &[u32]) {
    for member in members {
        assert!(rt; targets.next(chooser).member == Id::new(*member));
    }
}

#[test]
fn orders_are_followed(rt: HostRuntime) {
    let orders = [[2, 3].as_slice(), [3, 2].as_slice()];
    let mut chooser = scripted(&rt, rt.alloc(), &orders, &[]);
    let mut targets = targets_of(&rt, &[2, 3]);
    probes(&rt, &mut targets, &mut chooser, &[2, 3, 3, 2]);
}

// The second is no order of the members, so they stay in the order in which they were probed.
#[test]
fn what_is_no_order_changes_none(rt: HostRuntime) {
    let orders = [[4, 2, 3].as_slice(), [2, 2, 3].as_slice()];
    let mut chooser = scripted(&rt, rt.alloc(), &orders, &[]);
    let mut targets = targets_of(&rt, &[2, 3, 4]);
    probes(&rt, &mut targets, &mut chooser, &[4, 2, 3, 4]);
}

#[test]
fn a_joiner_waits_or_is_probed(rt: HostRuntime) {
    for (place, expected) in [(0, [3, 4, 2]), (1, [4, 3, 2])] {
        let mut chooser = scripted(&rt, rt.alloc(), &[], &[place]);
        let mut targets = targets_of(&rt, &[2, 3]);
        probes(&rt, &mut targets, &mut chooser, &[2]);
        joins_once(&rt, &mut targets, &mut chooser, place);
        probes(&rt, &mut targets, &mut chooser, &expected);
    }
}

fn joins_once<R: Abort>(rt: &R, targets: &mut Targets, chooser: &mut Scripted, place: u32) {
    assert!(rt; targets.join(id(4), chooser) == Ok(place));
    assert!(rt; targets.join(id(4), chooser) == Err(JoinFault::Listed));
}

#[test]
fn a_round_is_drawn_when_all_were_probed(rt: HostRuntime) {
    let mut chooser = scripted(&rt, rt.alloc(), &[], &[]);
    let mut targets = targets_of(&rt, &[2, 3]);
    assert_draws(&rt, &targets.next(&mut chooser), &[2, 3]);
    assert_draws_none(&rt, &targets.next(&mut chooser));
    assert!(rt; targets.remove(id(3)));
    assert_draws(&rt, &targets.next(&mut chooser), &[2]);
    assert!(rt; targets.remove(id(2)));
    let next = targets.next(&mut chooser);
    assert_draws_none(&rt, &next);
    assert!(rt; next.member.is_none());
}

fn assert_draws<R: Abort>(rt: &R, next: &Next, order: &[u32]) {
    assert!(rt; next.drawn == Some(order_of(order)));
}

fn assert_draws_none<R: Abort>(rt: &R, next: &Next) {
    assert!(rt; next.drawn.is_none());
}

#[test]
fn members_are_listed_once(rt: HostRuntime) {
    let twice = order_of(&[2, 3, 2]);
    assert!(rt; Targets::open(twice.as_slice()).err() == Some(JoinFault::Listed));
}

#[test]
fn members_are_at_most_128(rt: HostRuntime) {
    let mut targets = all_of_128(&rt);
    assert!(rt; targets.len() == 128);
    assert!(rt; !targets.is_empty());
    let mut chooser = scripted(&rt, rt.alloc(), &[], &[]);
    assert!(rt; targets.join(id(128), &mut chooser) == Err(JoinFault::Listed));
    assert!(rt; targets.join(id(129), &mut chooser) == Err(JoinFault::Full));
    assert!(rt; !targets.remove(id(129)));
    replaces_the_last(&rt, &mut targets, &mut chooser);
}

fn all_of_128<R: Abort>(rt: &R) -> Targets {
    let mut members = order_of(&[]);
    for number in 1..129 {
        let _ = members.try_push(id(number));
    }
    match Targets::open(members.as_slice()) {
        Ok(targets) => targets,
        Err(_) => panic!(rt; "they are 128"),
    }
}

// With no place written down a joiner is the last.
fn replaces_the_last<R: Abort>(rt: &R, targets: &mut Targets, chooser: &mut Scripted) {
    assert!(rt; targets.remove(id(128)));
    assert!(rt; !targets.holds(id(128)));
    assert!(rt; targets.join(id(129), chooser) == Ok(127));
    assert!(rt; targets.holds(id(129)));
}

#[test]
fn candidates_are_the_others(rt: HostRuntime) {
    let targets = targets_of(&rt, &[5, 3, 4]);
    assert!(rt; targets.members() == order_of(&[5, 3, 4]));
    assert!(rt; targets.candidates(id(3)) == order_of(&[5, 4]));
    assert!(rt; targets.candidates(id(6)) == order_of(&[5, 3, 4]));
}
