//! Members that the receiver joins again by itself.

ghost use Rattle.std.specs.Prelude.{◌≡◌, ◌<◌, ◌≤◌, [], ◌∷◌, List, length, true};
ghost use mathlib.Core.List.{IsPrefix};
ghost use Rattle.swim_history.specs.declared.rows.Change.{Change};
ghost use Rattle.swim_history.specs.Changes.{table_after};
ghost use Rattle.swim_history.specs.Setting.{Setting};
ghost use Rattle.swim_rejoin.specs.Histories.{Event};
ghost use Rattle.swim_rejoin.specs.Rejoiners.{Follows};
ghost use Rattle.swim_receiver.specs.Happenings.{Happening, with_knocks};
ghost use Rattle.swim_receiver.specs.Happenings.Happening.{Rejoined};
ghost use Rattle.swim_receiver.specs.Rejoining.{IsOfSame, IsReturning, Learns, whom};

use std::sync::Wait;
use swim_history::{Row, Table, copy_table};
use swim_rejoin::Rejoiner;
use swim_wire::{Id, KNOWN_MEMBERS, Message, Peer};
use swim_work::{Note, RejoinLookup, TidingsBoard, TidingsInbox};

/// What is remembered of members that come back, over all lives: when they were knocked at, judged and joined again. At
/// each look it takes what the ticker left, and asks which N is in force: there is a knock at each N-th start of a
/// period.
#[derive(Drop)]
pub struct Returning<'b> {
    lookup: RejoinLookup<'b>,
    inbox: TidingsInbox<'b>,
    rejoiner: Rejoiner,
    // The rows of the table that the rejoiner was told last.
    rows: Table,
    period: u64,
    rejoins: u64,
}

impl<'b> Returning<'b> {
    /// Of that member, which knocks as the board says. Where that says 0 nobody is knocked at, and nobody joined again.
    pub fn new(board: &'b TidingsBoard, me: Id) -> Returning<'b>
        ensures me { result.rejoiner.me ≡ me }
        ensures returning { IsReturning result [] }
    {
        Returning {
            lookup: RejoinLookup::new(board),
            inbox: TidingsInbox::new(board),
            rejoiner: Rejoiner::new(me),
            rows: Table::new(),
            period: 0,
            rejoins: 0,
        }
    }

    /// How many joins were made by the daemon itself. The count stops at 2^64-1.
    pub fn rejoins(&self) -> u64
        ensures { result ≡ self.now.rejoins }
    {
        self.rejoins
    }

    /// Takes over which rule is in force now. What the ticker left until then is taken over by the rule that was: with 0
    /// it is forgotten with everything else.
    pub(crate) fn rule<R: Wait>(&mut self, rt: &R)
        ensures same { IsOfSame self.old self.new }
        ensures learns { (o : Setting) (seen : List Change) → Learns o seen seen self.old self.new }
    {
        self.take_over(rt);
        self.renew();
    }

    /// Looks up which rule is in force. With 0 nobody is joined again, and all is forgotten.
    // Kept out of line, as `Receiver::look` is: `show` runs twice for every datagram.
    #[inline(never)]
    fn renew(&mut self)
        ensures same { IsOfSame self.old self.new }
        ensures learns { (o : Setting) (seen : List Change) → Learns o seen seen self.old self.new }
    {
        let rejoin = self.lookup.rejoin();
        self.rejoiner.rule(rejoin);
        if rejoin == 0 {
            self.rows.clear();
        }
    }

    /// The member table was looked at, and has these rows. Where they are as they were, that is no news.
    pub(crate) fn looked_at(&mut self, rows: &[Row])
        requires { length rows.now ≤ KNOWN_MEMBERS }
        ensures same { IsOfSame self.old self.new }
        ensures learns { (o : Setting) (saw seen : List Change) → IsPrefix saw seen → rows.now ≡ table_after o seen
            → Learns o saw seen self.old self.new }
        ensures rows { 0 < self.old.rejoiner.rejoin → self.new.rows.items ≡ rows.now }
    {
        if self.rejoiner.is_open() && !are_same(rows, self.rows.as_slice()) {
            self.rows = copy_table(rows);
            self.rejoiner.looked_at(rows);
        }
    }

    /// Takes over what the ticker left, where somebody may be joined again. Else it stays, as the rule may have changed
    /// since it was looked up.
    // Kept out of line, as `Receiver::look` is: `show` runs twice for every datagram.
    #[inline(never)]
    pub(crate) fn take_over<R: Wait>(&mut self, rt: &R)
        ensures same { IsOfSame self.old self.new }
        ensures learns { (o : Setting) (seen : List Change) → Learns o seen seen self.old self.new }
    {
        if self.rejoiner.is_open() {
            let tidings = self.inbox.take(rt);
            self.period = tidings.period;
            knocked(&mut self.rejoiner, tidings.notes.as_slice());
        }
    }

    /// Who is to be joined again after the message from there, with its row.
    pub(crate) fn whom(&self, message: &Option<Message>, source: &Peer) -> Option<Row>
        ensures { (h : List Happening) → IsReturning self.now h
            → result ≡ whom self.now.rejoiner.me h source.now message.now }
    {
        match message {
            Some(message) => self.rejoiner.believes(message, source),
            None => None,
        }
    }

    /// The member was joined again.
    pub(crate) fn joined(&mut self, id: Id)
        ensures same { IsOfSame self.old self.new }
        ensures joined { (h : List Happening) → IsReturning self.old h → IsReturning self.new (Rejoined id ∷ h) }
    {
        self.rejoins = self.rejoins.saturating_add(1);
        self.rejoiner.joined(id, self.period);
    }
}

/// Whether these are the same rows.
fn are_same(rows: &[Row], others: &[Row]) -> bool
    ensures { result ≡ true → rows.now ≡ others.now }
{
    if rows.len() != others.len() {
        return false;
    }
    for place in 0..rows.len() {
        if rows[place] != others[place] {
            return false;
        }
    }
    true
}

/// Tells a rejoiner of these knocks, each once, in order.
fn knocked(rejoiner: &mut Rejoiner, notes: &[Note])
    ensures me { rejoiner.new.me ≡ rejoiner.old.me }
    ensures follows { (h : List Event) → Follows rejoiner.old h → Follows rejoiner.new (with_knocks notes.now h) }
{
    for note in notes {
        rejoiner.knocked(note.id, note.number);
    }
}
