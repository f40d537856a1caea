mod choices;
mod members;

use std::alloc::Global;
use std::process::Abort;
use std::test::*;
use swim_targets::{Order, Scripted, Targets};
use swim_wire::Id;

fn id(number: u32) -> Id {
    Id::new(number).unwrap_or_default()
}

// The ids of these numbers, at most 128.
fn order_of(numbers: &[u32]) -> Order {
    let mut order = Order::new();
    for number in numbers {
        let _ = order.try_push(id(*number));
    }
    order
}

// It draws these orders and these places, one after the other.
fn scripted<R: Abort>(rt: &R, alloc: Global, orders: &[&[u32]], places: &[u32]) -> Scripted {
    Scripted::new(orders_of(rt, alloc, orders), places_of(rt, alloc, places))
}

fn orders_of<R: Abort>(rt: &R, alloc: Global, orders: &[&[u32]]) -> Vec<Order> {
    let mut drawn = Vec::new(alloc);
    for order in orders {
        assert!(rt; drawn.push(order_of(order)).is_ok());
    }
    drawn
}

fn places_of<R: Abort>(rt: &R, alloc: Global, places: &[u32]) -> Vec<u32> {
    let mut drawn = Vec::new(alloc);
    for place in places {
        assert!(rt; drawn.push(*place).is_ok());
    }
    drawn
}

// The targets of a member that knows these others.
fn targets_of<R: Abort>(rt: &R, members: &[u32]) -> Targets {
    match Targets::open(order_of(members).as_slice()) {
        Ok(targets) => targets,
        Err(_) => panic!(rt; "they are few, and each stands once"),
    }
}
