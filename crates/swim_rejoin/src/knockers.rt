//! Whom a member knocks at.

ghost use Rattle.std.specs.Prelude.{◌≡◌, List, [], ◌∷◌, find, position};
ghost use Rattle.std.specs.Option.{option_map};
ghost use Rattle.swim_rejoin.specs.Failed.{is_failed};
ghost use Rattle.swim_rejoin.specs.Knockers.{Follows, after_start, is_due_now, knock_at, whom_now};
ghost use Rattle.swim_rejoin.specs.Knocking.{Start, at_start, is_after, knocked_by, since_then, whose_turn};

use std::marker::Model;
use swim_history::{Row, RowState};
use swim_wire::{Id, Kind, Message, Peer, PeriodNumber, Version};

/// A knock: a ping of this member's own at a failed member, and where it is sent.
#[derive(Clone, Copy, Debug, PartialEq, Eq)]
pub struct KnockPing {
    pub peer: Peer,
    pub message: Message,
}

/// Whom a member knocks at: at each N-th start of a period at one of the failed members, in turn. Each start tells which
/// N is in force; with 0 it knocks at nobody.
#[derive(Drop)]
pub struct Knocker {
    me: Id,
    version: Version,
    since: u16,
    last: Option<Id>,
}

impl Model for Knocker {
    ghost use Rattle.swim_rejoin.specs.Knockers.{Kept};

    ghost Value = { Kept };

    ghost view = { λ k. record {
      me = k.me;
      version = k.version;
      since = k.since;
      last = k.last;
    } };

    ghost use Rattle.std.specs.Prelude.{◌<◌};

    ghost invariant = { λ k. k.since < 65535 };
}

impl Knocker {
    /// A knocker of that member, whose pings have that version. No period started yet.
    pub fn new(me: Id, version: Version) -> Knocker
        ensures me { result.me ≡ me }
        ensures version { result.version ≡ version }
        ensures follows { Follows result [] }
    {
        Knocker {
            me,
            version,
            since: 0,
            last: None,
        }
    }

    /// The period with that number starts while each `rejoin`-th start has a knock, and these are the rows of the
    /// member table, ascending by id: the knock that is due, if one is and a member is failed. It is at the next failed
    /// member by id after the one that was knocked at last, and behind the highest again at the lowest.
    pub fn start(&mut self, rejoin: u16, rows: &[Row], number: PeriodNumber) -> Option<KnockPing>
        ensures me { self.new.me ≡ self.old.me }
        ensures version { self.new.version ≡ self.old.version }
        ensures knock { (h : List Start) → Follows self.old h → result
            ≡ option_map (knock_at self.old.me self.old.version number) (knocked_by rejoin h rows.now) }
        ensures follows { (h : List Start) → Follows self.old h
            → Follows self.new (at_start rejoin rows.now ∷ h) }
    {
        let row = self.turn(rejoin, rows)?;
        Some(self.knock_at(&row, number))
    }

    /// One start more: whose turn it is, where a knock is due.
    fn turn(&mut self, rejoin: u16, rows: &[Row]) -> Option<Row>
        ensures whom { result ≡ whom_now rejoin self.old rows.now }
        ensures after { self.new ≡ after_start rejoin self.old rows.now }
    {
        if !self.count(rejoin) {
            return None;
        }
        let row = whose_turn(self.last, rows)?;
        self.last = Some(row.id);
        Some(row)
    }

    /// One start more is counted: whether a knock is due. With a number that is lower now it may have been due before.
    fn count(&mut self, rejoin: u16) -> bool
        ensures due { result ≡ is_due_now rejoin self.old }
        ensures after { self.new ≡ record self.old { since = since_then rejoin self.old.since } }
    {
        if self.since + 1 < rejoin {
            self.since += 1;
            return false;
        }
        self.since = 0;
        rejoin > 0
    }

    /// The knock at a member in that period.
    fn knock_at(&self, row: &Row, number: PeriodNumber) -> KnockPing
        ensures { result ≡ knock_at self.now.me self.now.version number row.now }
    {
        KnockPing {
            peer: row.peer,
            message: Message {
                version: self.version,
                kind: Kind::Ping,
                sender: self.me,
                initiator: self.me,
                target: row.id,
                number,
                at: None,
            },
        }
    }
}

/// Whose turn it is after that member.
fn whose_turn(last: Option<Id>, rows: &[Row]) -> Option<Row>
    ensures { result ≡ whose_turn last rows.now }
{
    last.and_then(|id| first_after(id, rows))
        .or_else(|| first_failed(rows))
}

/// The first failed member with a higher id.
fn first_after(id: Id, rows: &[Row]) -> Option<Row>
    ensures { result ≡ find (is_after id) rows.now }
{
    match place_after(id, rows) {
        Some(place) => Some(rows[place]),
        None => None,
    }
}

/// The first failed member.
fn first_failed(rows: &[Row]) -> Option<Row>
    ensures { result ≡ find is_failed rows.now }
{
    match place_of_failed(rows) {
        Some(place) => Some(rows[place]),
        None => None,
    }
}

/// The place of the first failed member with a higher id.
fn place_after(id: Id, rows: &[Row]) -> Option<usize>
    ensures { result ≡ position (is_after id) rows.now }
{
    rows.iter().position(|row| is_failed(row) && row.id > id)
}

/// The place of the first failed member.
fn place_of_failed(rows: &[Row]) -> Option<usize>
    ensures { result ≡ position is_failed rows.now }
{
    rows.iter().position(|row| is_failed(row))
}

/// Whether a verdict stands on a member.
fn is_failed(row: &Row) -> bool
    ensures { result ≡ is_failed row.now }
{
    row.state != RowState::Up
}
