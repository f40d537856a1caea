//! The members that are probed in turn.

ghost use Rattle.std.specs.Prelude.{◌≡◌, ◌==◌, ◌↔◌, ◌≤◌, ◌<◌, [], length, true, false, IsOk, IfOk, OnErr, IfSome};
ghost use Rattle.std.specs.Prelude.{IfNone};
ghost use Rattle.swim_wire.specs.Ids.{has, has_twice, without, front};
ghost use Rattle.swim_wire.specs.Round.{Lists, all_of, leave, MayDraw, redraw, advance, join_at};
ghost use Rattle.swim_targets.specs.Rounds.{drawn_of, IsListing};
ghost use Rattle.swim_targets.specs.Faults.{join_number};

use crate::Chooser;
use crate::places::{has, has_twice, place_of};
use std::marker::Model;
use swim_wire::{Id, KNOWN_MEMBERS, Order};
use thiserror::Error;

/// Why members are not taken. The first that applies is told.
#[derive(Clone, Copy, Debug, PartialEq, Eq, Error)]
pub enum JoinFault {
    /// A member is listed already, or twice.
    #[error("a member is listed already")]
    Listed,
    /// There are more than [`KNOWN_MEMBERS`].
    #[error("more than 128 members")]
    Full,
}

impl JoinFault {
    /// The number of this fault, from 1 on in the order in which they are looked at.
    pub fn number(self) -> u8
        ensures { result ≡ join_number self }
    {
        match self {
            JoinFault::Listed => 1,
            JoinFault::Full => 2,
        }
    }
}

/// Who is probed next, and the order that a new round began in.
#[derive(Debug, PartialEq, Eq, Drop)]
pub struct Next {
    /// `None` where no member is listed.
    pub member: Option<Id>,
    /// `None` where the round went on, or there is nobody to probe.
    pub drawn: Option<Order>,
}

/// The members of a round, at most 128 and none twice: those probed, in order, and those to be probed
/// (section 4.3 of the SWIM paper).
#[derive(Drop)]
pub struct Targets {
    members: Order,
    // The first so many are those probed.
    probed: usize,
}

impl Model for Targets {
    ghost use Rattle.std.specs.Prelude.{take, drop};
    ghost use Rattle.swim_wire.specs.Round.{Lists};
    ghost use Rattle.swim_targets.specs.Rounds.{IsKept};

    ghost Value = { Lists };

    ghost view = { λ targets. record {
      probed = take targets.probed targets.members.items;
      rest = drop targets.probed targets.members.items;
    } };

    ghost invariant = { λ targets. IsKept targets.members.items targets.probed };
}

impl Targets {
    /// The list of these members. Each waits for the next round, which begins at once.
    pub fn open(ids: &[Id]) -> Result<Targets, JoinFault>
        ensures ok { IfOk result (λ targets. targets ≡ record { probed = ids.now; rest = [] }) }
        ensures valid { IsOk result ↔ ((has_twice ids.now ≡ false) × (length ids.now ≤ KNOWN_MEMBERS)) }
        ensures listed { (result ≡ Err JoinFault.Listed) ↔ (has_twice ids.now ≡ true) }
        ensures full { (result ≡ Err JoinFault.Full) ↔
            ((has_twice ids.now ≡ false) × (KNOWN_MEMBERS < length ids.now)) }
    {
        if has_twice(ids) {
            return Err(JoinFault::Listed);
        }
        let mut members = Order::new();
        if members.try_extend_from_slice(ids).is_err() {
            return Err(JoinFault::Full);
        }
        Ok(Targets {
            members,
            probed: ids.len(),
        })
    }

    /// Takes the next member. Where all were probed, a new round begins first, in an order that the
    /// chooser draws. Nothing else asks the chooser.
    pub fn next<C: Chooser>(&mut self, chooser: &mut C) -> Next
        ensures lists { self.new ≡ advance (redraw (drawn_of result.drawn) self.old) }
        ensures member { result.member ≡ front (redraw (drawn_of result.drawn) self.old).rest }

        // An order is drawn exactly where all were probed, and it is the chooser's.
        ensures draws { MayDraw (drawn_of result.drawn) self.old }
        ensures drawn { IfSome result.drawn (λ order. C.orders chooser.old self.old.probed order.items chooser.new) }
        ensures kept { IfNone result.drawn (chooser.new ≡ chooser.old) }
        ensures listing { IsListing self.new }
    {
        let drawn = self.redraw(chooser);
        let member = self.advance();
        Next { member, drawn }
    }

    fn redraw<C: Chooser>(&mut self, chooser: &mut C) -> Option<Order>
        ensures lists { self.new ≡ redraw (drawn_of result) self.old }
        ensures draws { MayDraw (drawn_of result) self.old }
        ensures drawn { IfSome result (λ order. C.orders chooser.old self.old.probed order.items chooser.new) }
        ensures kept { IfNone result (chooser.new ≡ chooser.old) }
    {
        if self.probed < self.len() {
            return None;
        }
        if self.is_empty() {
            return None;
        }
        chooser.order(self.members.as_mut_slice());
        self.probed = 0;
        Some(copied(self.members.as_slice()))
    }

    fn advance(&mut self) -> Option<Id>
        ensures lists { self.new ≡ advance self.old }
        ensures member { result ≡ front self.old.rest }
        ensures listing { IsListing self.new }
    {
        let member = *self.members.as_slice().get(self.probed)?;
        self.probed += 1;
        Some(member)
    }

    /// Lists a joiner at a place that the chooser draws: among those probed it waits for the next
    /// round, and among those to be probed it is probed in this one. Answers the place, counted from
    /// 0 over those probed and then the others. An `Err` changes nothing.
    pub fn join<C: Chooser>(&mut self, id: Id, chooser: &mut C) -> Result<u32, JoinFault>
        ensures listed { (result ≡ Err JoinFault.Listed) ↔ (has (all_of self.old) id ≡ true) }
        ensures full { (result ≡ Err JoinFault.Full)
            ↔ ((has (all_of self.old) id ≡ false) × (length (all_of self.old) ≡ KNOWN_MEMBERS)) }
        ensures place { IfOk result (λ place. place ≤ length (all_of self.old)) }
        ensures drawn { IfOk result (λ place. C.places chooser.old (length (all_of self.old)) place chooser.new) }
        ensures ok { IfOk result (λ place. self.new ≡ join_at id place self.old) }
        ensures err { OnErr result ((self.new ≡ self.old) × (chooser.new ≡ chooser.old)) }
        ensures listing { IsListing self.new }
    {
        if self.holds(id) {
            return Err(JoinFault::Listed);
        }
        if self.members.is_full() {
            return Err(JoinFault::Full);
        }
        let place = chooser.place(self.len() as u32);
        self.members.insert(place as usize, id);
        if (place as usize) < self.probed {
            self.probed += 1;
        }
        Ok(place)
    }

    /// Takes a member off the list, and answers whether it was on it.
    pub fn remove(&mut self, id: Id) -> bool
        ensures lists { self.new ≡ leave id self.old }
        ensures listed { result ≡ has (all_of self.old) id }
        ensures listing { IsListing self.new }
    {
        let Some(place) = place_of(self.members.as_slice(), id) else {
            return false;
        };
        self.members.remove(place);
        if place < self.probed {
            self.probed -= 1;
        }
        true
    }

    /// Whether the member is listed.
    pub fn holds(&self, id: Id) -> bool
        ensures value { result ≡ has (all_of self.now) id }
        ensures listing { IsListing self.now }
    {
        has(self.members.as_slice(), id)
    }

    /// How many members are listed, at most 128.
    pub fn len(&self) -> usize
        ensures value { result ≡ length (all_of self.now) }
        ensures listing { IsListing self.now }
    {
        self.members.len()
    }

    /// Whether no member is listed.
    pub fn is_empty(&self) -> bool
        ensures value { result ≡ (length (all_of self.now) == 0) }
        ensures listing { IsListing self.now }
    {
        self.members.is_empty()
    }

    /// The members in the order in which they are listed: those probed, then those to be probed.
    pub fn members(&self) -> Order
        ensures value { result.items ≡ all_of self.now }
        ensures listing { IsListing self.now }
    {
        copied(self.members.as_slice())
    }

    /// The members but for one, in the order in which they are listed.
    pub fn candidates(&self, except: Id) -> Order
        ensures value { result.items ≡ without except (all_of self.now) }
        ensures listing { IsListing self.now }
    {
        let mut others = Order::new();
        for member in self.members.as_slice() {
            if *member != except {
                others.push(*member);
            }
        }
        others
    }
}

fn copied(ids: &[Id]) -> Order
    requires { length ids.now ≤ KNOWN_MEMBERS }
    ensures { result.items ≡ ids.now }
{
    let mut order = Order::new();
    let _all_fit = order.try_extend_from_slice(ids);
    order
}
