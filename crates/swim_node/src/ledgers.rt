//! How many calls each seat was answered, and how many met a full journal, counted under the lock and in the seats.
//! Nothing here has bytes: the counts exist in the proofs alone. They show that no seat has lost a call or has one too
//! many, and that who was told of a full journal was told of the node's own.

ghost use Rattle.std.specs.Prelude.{◌≡◌, ◌+◌, ◌<◌, ◌≤◌, ◌∷◌, [], length, slice_index, slice_set};
ghost use Rattle.swim_node.specs.Names.{none_counted};

use crate::naming::Naming;
use std::marker::{Model, PhantomData};
use std::sync::ledger::{Blank, Book, Ledger, Share};

/// The ledger of a seat of a node.
pub struct Of<N, const SEAT: u8> {
    of: PhantomData<N>,
}

impl<N: Naming, const SEAT: u8> Ledger for Of<N, SEAT> {
    ghost use Rattle.std.specs.Prelude.{slice_index};

    ghost name = { slice_index N.ledgers SEAT };

    ghost parts = { 1 };
}

/// The ledger of a node's calls that met a full journal. Each of the four seats has a part of it.
pub struct MetFull<N> {
    of: PhantomData<N>,
}

impl<N: Naming> Ledger for MetFull<N> {
    ghost use Rattle.std.specs.Prelude.{slice_index};

    ghost name = { slice_index N.ledgers 4 };

    ghost parts = { 4 };
}

/// The five ledgers of a node that isn't open yet. A contract sees their names.
#[derive(Drop)]
pub(crate) struct Ledgers {
    first: Blank,
    second: Blank,
    third: Blank,
    fourth: Blank,
    met_full: Blank,
}

impl Model for Ledgers {
    ghost use Rattle.std.specs.Prelude.{◌≡◌, List, ℕ, ◌∷◌, []};

    ghost Value = { List ℕ };

    ghost view = { λ l. l.first.name ∷ l.second.name ∷ l.third.name ∷ l.fourth.name ∷ l.met_full.name ∷ [] };

    ghost invariant = { λ l. (l.first.parts ≡ 1) × (l.second.parts ≡ 1) × (l.third.parts ≡ 1) × (l.fourth.parts ≡ 1)
        × (l.met_full.parts ≡ 4) };
}

impl Ledgers {
    pub(crate) fn new() -> Ledgers {
        Ledgers {
            first: Blank::new(1),
            second: Blank::new(1),
            third: Blank::new(1),
            fourth: Blank::new(1),
            met_full: Blank::new(4),
        }
    }
}

/// The counts under the lock: how many calls each of the four seats was answered, and how many of all met a full
/// journal.
#[derive(Drop)]
pub(crate) struct Books<N: Naming> {
    first: Book<Of<N, 0>>,
    second: Book<Of<N, 1>>,
    third: Book<Of<N, 2>>,
    fourth: Book<Of<N, 3>>,
    met_full: Book<MetFull<N>>,
}

impl<N: Naming> Model for Books<N> {
    ghost use Rattle.std.specs.Prelude.{◌∷◌, []};
    ghost use Rattle.swim_node.specs.Names.{Totals};

    ghost Value = { Totals };

    ghost view = { λ b. record {
      calls = b.first.total ∷ b.second.total ∷ b.third.total ∷ b.fourth.total ∷ [];
      full = b.met_full.total;
    } };
}

/// The counts in a seat: its number, how many calls it was answered, and how many of its calls met a full journal. It
/// has the only part of its seat's ledger.
#[derive(Drop)]
pub(crate) struct Tally<N: Naming> {
    seat: u8,
    first: Share<Of<N, 0>>,
    second: Share<Of<N, 1>>,
    third: Share<Of<N, 2>>,
    fourth: Share<Of<N, 3>>,
    met_full: Share<MetFull<N>>,
}

impl<N: Naming> Model for Tally<N> {
    ghost use Rattle.std.specs.Prelude.{◌≡◌, ◌<◌, ◌∷◌, [], slice_index};
    ghost use Rattle.swim_node.specs.Names.{Count};

    ghost Value = { Count };

    ghost view = { λ t. record {
      seat = t.seat;
      calls = slice_index (t.first.amount ∷ t.second.amount ∷ t.third.amount ∷ t.fourth.amount ∷ []) t.seat;
      full = t.met_full.amount;
    } };

    ghost invariant = { λ t. (t.seat < 4)
        × (slice_index (t.first.parts ∷ t.second.parts ∷ t.third.parts ∷ t.fourth.parts ∷ []) t.seat ≡ 1)
        × (t.met_full.parts ≡ 1) };
}

impl<N: Naming> Books<N> {
    /// Opens the ledgers. Nothing was counted yet.
    pub(crate) fn open(ledgers: Ledgers) -> (Books<N>, [Tally<N>; 4])
        requires { ledgers ≡ N.ledgers }
        ensures books { result.0 ≡ record { calls = 0 ∷ 0 ∷ 0 ∷ 0 ∷ []; full = 0 } }
        ensures tallies { result.1 ≡ none_counted 0 ∷ none_counted 1 ∷ none_counted 2 ∷ none_counted 3 ∷ [] }
    {
        let Ledgers {
            first,
            second,
            third,
            fourth,
            met_full,
        } = ledgers;
        let (first, one) = first.open::<Of<N, 0>>();
        let (second, two) = second.open::<Of<N, 1>>();
        let (third, three) = third.open::<Of<N, 2>>();
        let (fourth, four) = fourth.open::<Of<N, 3>>();
        let (met_full, all) = met_full.open::<MetFull<N>>();
        let books = Books {
            first,
            second,
            third,
            fourth,
            met_full,
        };
        (books, tallies_of(one, two, three, four, all))
    }

    /// Counts one more call of a seat.
    pub(crate) fn add(&mut self, tally: &mut Tally<N>)
        ensures books { let seat = tally.old.seat in self.new ≡ record self.old {
          calls = slice_set self.old.calls seat (slice_index self.old.calls seat + 1);
        } }
        ensures tally { tally.new ≡ record tally.old { calls = tally.old.calls + 1 } }
        ensures seat { tally.old.seat < 4 }
    {
        match tally.seat {
            0 => self.first.add(&mut tally.first, 1),
            1 => self.second.add(&mut tally.second, 1),
            2 => self.third.add(&mut tally.third, 1),
            _ => self.fourth.add(&mut tally.fourth, 1),
        }
    }

    /// Counts one more call of a seat that met a full journal.
    pub(crate) fn add_full(&mut self, tally: &mut Tally<N>)
        ensures books { self.new ≡ record self.old { full = self.old.full + 1 } }
        ensures tally { tally.new ≡ record tally.old { full = tally.old.full + 1 } }
    {
        self.met_full.add(&mut tally.met_full, 1)
    }

    /// Changes nothing, and shows that the seat's count is the one under the lock, and that no more of its calls met a
    /// full journal than of all.
    pub(crate) fn audit(&mut self, tally: &mut Tally<N>)
        ensures books { self.new ≡ self.old }
        ensures tally { tally.new ≡ tally.old }
        ensures seat { tally.old.seat < 4 }
        ensures count { slice_index self.old.calls tally.old.seat ≡ tally.old.calls }
        ensures four { length self.old.calls ≡ 4 }
        ensures full { tally.old.full ≤ self.old.full }
    {
        self.met_full.audit(&mut tally.met_full);
        match tally.seat {
            0 => self.first.audit(&mut tally.first),
            1 => self.second.audit(&mut tally.second),
            2 => self.third.audit(&mut tally.third),
            _ => self.fourth.audit(&mut tally.fourth),
        }
    }
}

impl<N: Naming> Tally<N> {
    /// The seat's number.
    pub(crate) fn seat(&self) -> u8
        ensures seat { result ≡ self.now.seat }
        ensures four { self.now.seat < 4 }
    {
        self.seat
    }
}

/// A tally for each seat. It has the part of its seat's ledger, and none of the others, and a part of that of all.
fn tallies_of<N: Naming>(
    one: Share<Of<N, 0>>,
    two: Share<Of<N, 1>>,
    three: Share<Of<N, 2>>,
    four: Share<Of<N, 3>>,
    all: Share<MetFull<N>>,
) -> [Tally<N>; 4]
    requires parts { (one.parts ≡ 1) × (two.parts ≡ 1) × (three.parts ≡ 1) × (four.parts ≡ 1) }
    requires amounts { (one.amount ≡ 0) × (two.amount ≡ 0) × (three.amount ≡ 0) × (four.amount ≡ 0) }
    requires all { (all.parts ≡ 4) × (all.amount ≡ 0) }
    ensures { result ≡ none_counted 0 ∷ none_counted 1 ∷ none_counted 2 ∷ none_counted 3 ∷ [] }
{
    let (mut one, mut two, mut three, mut four, mut all) = (one, two, three, four, all);
    [
        Tally {
            seat: 0,
            first: one.split_off(1, 0),
            second: two.empty(),
            third: three.empty(),
            fourth: four.empty(),
            met_full: all.split_off(1, 0),
        },
        Tally {
            seat: 1,
            first: one.empty(),
            second: two.split_off(1, 0),
            third: three.empty(),
            fourth: four.empty(),
            met_full: all.split_off(1, 0),
        },
        Tally {
            seat: 2,
            first: one.empty(),
            second: two.empty(),
            third: three.split_off(1, 0),
            fourth: four.empty(),
            met_full: all.split_off(1, 0),
        },
        Tally {
            seat: 3,
            first: one.empty(),
            second: two.empty(),
            third: three.empty(),
            fourth: four.split_off(1, 0),
            met_full: all.split_off(1, 0),
        },
    ]
}
