//! A chooser that follows what was written down beforehand.

ghost use Rattle.std.specs.Prelude.{◌≡◌, List, ℕ, map, slice_get, Some, IsPermutation, if◌then◌else◌};
ghost use Rattle.swim_targets.specs.Script.{is_order_of, FollowsOrder, FollowsPlace};

use crate::Chooser;
use crate::places::place_of;
use std::marker::Model;
use swim_wire::{Id, Order};

/// Follows orders and places that were written down, each in turn. An order that is none of the ids
/// leaves them as they are, and so does the end of the orders. A place past the last is the last, and
/// so is each one after the end of the places.
#[derive(Drop)]
pub struct Scripted {
    orders: Vec<Order>,
    places: Vec<u32>,
    // How many of each were followed.
    orders_used: usize,
    places_used: usize,
}

impl Model for Scripted {
    ghost use Rattle.std.specs.Prelude.{map, drop};
    ghost use Rattle.swim_targets.specs.Script.{Script};

    ghost Value = { Script };

    ghost view = { λ chooser. record {
      orders = map (λ order. order.items) (drop chooser.orders_used chooser.orders.items);
      places = drop chooser.places_used chooser.places.items;
    } };
}

impl Scripted {
    /// The chooser that will follow these.
    pub fn new(orders: Vec<Order>, places: Vec<u32>) -> Scripted
        ensures orders { result.orders ≡ map (λ order. order.items) orders.items }
        ensures places { result.places ≡ places.items }
    {
        Scripted {
            orders,
            places,
            orders_used: 0,
            places_used: 0,
        }
    }
}

impl Chooser for Scripted {
    ghost orders = { FollowsOrder };

    ghost places = { FollowsPlace };

    fn order(&mut self, ids: &mut [Id])
        ensures permutation { IsPermutation ids.old ids.new }
        ensures drawn { FollowsOrder self.old ids.old ids.new self.new }

        // What is followed is an order of the ids, and each order of them is followed.
        ensures followed { (order : List ℕ) → slice_get self.old.orders 0 ≡ Some order
            → IsPermutation ids.old order → ids.new ≡ order }
        ensures kept { (order : List ℕ) → slice_get self.old.orders 0 ≡ Some order
            → ¬ IsPermutation ids.old order → ids.new ≡ ids.old }
    {
        let Some(order) = self.orders.get(self.orders_used) else {
            return;
        };
        self.orders_used += 1;
        follow(ids, order);
    }

    fn place(&mut self, upto: u32) -> u32 {
        let Some(place) = self.places.get(self.places_used) else {
            return upto;
        };
        self.places_used += 1;
        upto.min(*place)
    }
}

// Puts the ids into the order, if it is one of them.
fn follow(ids: &mut [Id], order: &Order)
    ensures { ids.new ≡ (if is_order_of ids.old order.now.items then order.now.items else ids.old) }
{
    if is_order_of(ids, order) {
        ids.copy_from_slice(order.as_slice());
    }
}

// Whether the order has the ids, each as often.
fn is_order_of(ids: &[Id], order: &Order) -> bool
    ensures { result ≡ is_order_of ids.now order.now.items }
{
    let mut left = Order::new();
    let _all_fit = left.try_extend_from_slice(order.as_slice());
    for id in ids {
        let Some(place) = place_of(left.as_slice(), *id) else {
            return false;
        };
        left.remove(place);
    }
    left.is_empty()
}
