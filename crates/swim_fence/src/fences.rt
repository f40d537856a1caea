//! The fence, with a bucket for each member's address and one for all others.

ghost use Rattle.std.specs.Prelude.{◌≡◌, ◌<◌, ◌≤◌, ℕ, List, [], ◌∷◌, length, slice_index_or};
ghost use Rattle.swim_fence.specs.Buckets.{full};
ghost use Rattle.swim_fence.specs.Fences.{Follows, HasRoom, TakesRate, bucket_for, after_asked, passes_by};
ghost use Rattle.swim_fence.specs.Histories.{Event, passes};
ghost use Rattle.swim_fence.specs.Histories.Event.{Asked, Listed};
ghost use Rattle.swim_wire.specs.Address.{Address};

use crate::buckets::Bucket;
use crate::places::Places;
use std::marker::Model;
use swim_wire::{KNOWN_MEMBERS, Peer};

/// A fence: of each member's address so many datagrams a second pass, and of all other addresses together as many. A
/// second's datagrams may pass at once. Where the rate is 0 all pass.
#[derive(Drop)]
pub struct Fence {
    rate: u32,
    places: Places,
    buckets: [Bucket; KNOWN_MEMBERS],
    strangers: Bucket,
}

impl Model for Fence {
    ghost use Rattle.std.specs.Prelude.{◌≡◌, ◌≤◌, length};
    ghost use Rattle.swim_fence.specs.Fences.{Kept};

    ghost Value = { Kept };

    ghost view = { λ fence. record {
      rate = fence.rate;
      members = fence.places;
      buckets = fence.buckets;
      strangers = fence.strangers;
    } };

    ghost invariant = { λ fence. (length fence.buckets ≡ 128) × (length fence.places ≤ 128) };
}

impl Fence {
    /// A fence that lets up to `rate` datagrams a second pass, and a burst of as many. No member is listed.
    pub fn new(rate: u32) -> Fence
        ensures rate { result.rate ≡ rate }
        ensures follows { Follows result [] }
    {
        Fence {
            rate,
            places: Places::of(&[]),
            buckets: [Bucket::full(rate); KNOWN_MEMBERS],
            strangers: Bucket::full(rate),
        }
    }

    /// From now on that is the rate. Where it was another, each address begins with a second's datagrams.
    pub fn set_rate(&mut self, rate: u32)
        ensures { TakesRate self.old rate self.new }
    {
        if rate != self.rate {
            self.begin_anew(rate);
        }
    }

    /// The fence begins anew, with that rate and the same members.
    // Kept out of line, as a fence is large, and `set_rate` runs for each datagram.
    #[inline(never)]
    fn begin_anew(&mut self, rate: u32)
        ensures rate { self.new.rate ≡ rate }
        ensures follows { Follows self.new (Listed self.old.members ∷ []) }
    {
        let mut fence = Fence::new(rate);
        fence.list(self.places.as_slice());
        *self = fence;
    }

    /// These are the addresses of the members, at most 128. One that was a member's stays as it is; any other begins
    /// with a second's datagrams.
    pub fn list(&mut self, members: &[Peer])
        requires { length members.now ≤ KNOWN_MEMBERS }
        ensures rate { self.new.rate ≡ self.old.rate }
        ensures follows { (h : List Event) → Follows self.old h → Follows self.new (Listed members.now ∷ h) }
    {
        let places = Places::of(members);
        self.buckets = self.buckets_for(places.as_slice());
        self.places = places;
    }

    /// Whether a datagram from that address passes at that time, in nanoseconds of a clock that isn't set back. What
    /// passes is paid.
    pub fn admits(&mut self, from: &Peer, now: u64) -> bool
        ensures rate { self.new.rate ≡ self.old.rate }
        ensures passes { (h : List Event) → Follows self.old h → result ≡ passes self.old.rate h from.now now }
        ensures follows { (h : List Event) → Follows self.old h → Follows self.new (Asked from.now now ∷ h) }
    {
        self.rate == 0 || self.ask(from, now)
    }

    /// A datagram asks the bucket of its address.
    fn ask(&mut self, from: &Peer, now: u64) -> bool
        ensures passes { result ≡ passes_by self.old from.now now }
        ensures after { self.new ≡ after_asked self.old from.now now }
        ensures room { HasRoom self.old }
    {
        match self.places.place_of(from) {
            Some(place) => self.buckets[place].ask(self.rate, now),
            None => self.strangers.ask(self.rate, now),
        }
    }

    /// The buckets of these addresses in their order.
    fn buckets_for(&self, members: &[Peer]) -> [Bucket; KNOWN_MEMBERS]
        requires { length members.now ≤ KNOWN_MEMBERS }
        ensures { (place : ℕ) (a : Address) (b : Bucket) → place < length members.now
            → slice_index_or result place b ≡ bucket_for self.now (slice_index_or members.now place a) }
    {
        let mut buckets = [Bucket::full(self.rate); KNOWN_MEMBERS];
        for (place, member) in members.iter().enumerate() {
            buckets[place] = self.bucket_for(member);
        }
        buckets
    }

    /// The bucket of an address: the one that it has, or a full one.
    fn bucket_for(&self, member: &Peer) -> Bucket
        ensures { result ≡ bucket_for self.now member.now }
    {
        match self.places.place_of(member) {
            Some(place) => self.buckets[place],
            None => Bucket::full(self.rate),
        }
    }
}
