//! Whom a member joins again by itself.

ghost use Rattle.std.specs.Prelude.{◌≡◌, ◌<◌, ◌≤◌, List, [], ◌∷◌, length, map, nat_lt};
ghost use Rattle.swim_rejoin.specs.Believing.{believed};
ghost use Rattle.swim_rejoin.specs.Histories.{Event, rejoin_in};
ghost use Rattle.swim_rejoin.specs.Histories.Event.{Joined, Knocked, Looked, Ruled};
ghost use Rattle.swim_rejoin.specs.Knowing.{known_once_looked};
ghost use Rattle.swim_rejoin.specs.Rejoiners.{Follows, shown_by};

use crate::known::{Known, place_of};
use crate::marks::Marks;
use arrayvec::ArrayVec;
use std::marker::Model;
use swim_history::Row;
use swim_wire::{Id, KNOWN_MEMBERS, Message, Peer, PeriodNumber};

/// What is kept of the members of a table.
type Knowns = ArrayVec<Known, KNOWN_MEMBERS>;

/// Whom a member joins again by itself: it is told which N is in force (there is a knock at each N-th start of a
/// period), of each knock, of the member table as often as that is looked at, and of each join that it gave the word
/// for.
#[derive(Drop)]
pub struct Rejoiner {
    rejoin: u16,
    me: Id,
    marks: Marks,
    knowns: Knowns,
}

impl Model for Rejoiner {
    ghost use Rattle.swim_rejoin.specs.Rejoiners.{Kept};

    ghost Value = { Kept };

    ghost view = { λ r. record {
      rejoin = r.rejoin;
      me = r.me;
      knowns = r.knowns.items;
      marks = r.marks.marks;
    } };
}

impl Rejoiner {
    /// A rejoiner of that member, which knocks at nobody. Nothing happened yet.
    pub fn new(me: Id) -> Rejoiner
        ensures me { result.me ≡ me }
        ensures follows { Follows result [] }
    {
        Rejoiner {
            rejoin: 0,
            me,
            marks: Marks::none(),
            knowns: Knowns::new(),
        }
    }

    /// From now on each `rejoin`-th start of a period has a knock. With 0 nobody is joined, and all is forgotten.
    pub fn rule(&mut self, rejoin: u16)
        ensures me { self.new.me ≡ self.old.me }
        ensures follows { (h : List Event) → Follows self.old h → Follows self.new (Ruled rejoin ∷ h) }
    {
        self.rejoin = rejoin;
        if rejoin == 0 {
            self.knowns.clear();
        }
    }

    /// Whether anybody may be joined.
    pub fn is_open(&self) -> bool
        ensures { result ≡ nat_lt 0 self.now.rejoin }
    {
        self.rejoin > 0
    }

    /// The member was knocked at with that number.
    pub fn knocked(&mut self, id: Id, number: PeriodNumber)
        ensures me { self.new.me ≡ self.old.me }
        ensures follows { (h : List Event) → Follows self.old h → Follows self.new (Knocked id number ∷ h) }
    {
        if let Some(place) = place_of(self.knowns.as_slice(), id) {
            self.knowns[place].knock(number);
        }
    }

    /// The member table was looked at, and has these rows, at most 128.
    pub fn looked_at(&mut self, rows: &[Row])
        requires { length rows.now ≤ KNOWN_MEMBERS }
        ensures me { self.new.me ≡ self.old.me }
        ensures follows { (h : List Event) → Follows self.old h → Follows self.new (Looked rows.now ∷ h) }
    {
        self.marks = Marks::of(rows);
        self.knowns = knowns_of(self.knowns.as_slice(), rows);
    }

    /// The member was joined again in that period, as this rejoiner gave the word.
    pub fn joined(&mut self, id: Id, period: u64)
        ensures me { self.new.me ≡ self.old.me }
        ensures follows { (h : List Event) → Follows self.old h → Follows self.new (Joined id period ∷ h) }
    {
        if let Some(place) = place_of(self.knowns.as_slice(), id) {
            self.knowns[place].join(period);
        }
    }

    /// The member that is to be joined again after that datagram, with its row: its address, and the verdict that
    /// stands on it. The table that was last looked at shows it as failed at the address that the datagram is from, the
    /// datagram is its ack of one of the last 64 knocks at it, that knock was sent after the verdict, and it waited for
    /// long enough. A message of a sender that isn't failed costs some 20 instructions.
    pub fn believes(&self, message: &Message, from: &Peer) -> Option<Row>
        ensures { (h : List Event) → Follows self.now h
            → result ≡ believed (rejoin_in h) self.now.me h message.now from.now }
    {
        if self.rejoin == 0 || !self.marks.has(message.sender) {
            return None;
        }
        self.shown(message, from)
    }

    /// What the datagram shows of its sender.
    fn shown(&self, message: &Message, from: &Peer) -> Option<Row>
        ensures value { result ≡ shown_by self.now message.now from.now }
        ensures number { 0 < message.now.number }
    {
        prove!(message.number.get() > 0);
        match place_of(self.knowns.as_slice(), message.sender) {
            Some(place) => self.knowns[place].shown(self.me, message, from),
            None => None,
        }
    }
}

/// What is kept of these members, by what was kept before.
fn knowns_of(knowns: &[Known], rows: &[Row]) -> Knowns
    requires { length rows.now ≤ KNOWN_MEMBERS }
    ensures { result.items ≡ map (known_once_looked knowns.now) rows.now }
{
    let mut made = Knowns::new();
    for row in rows {
        made.push(known_of(knowns, row));
    }
    made
}

/// What is kept of a member once a table shows it with that row.
fn known_of(knowns: &[Known], row: &Row) -> Known
    ensures { result ≡ known_once_looked knowns.now row.now }
{
    match place_of(knowns, row.id) {
        Some(place) => knowns[place].again(row),
        None => Known::first(row),
    }
}
