//! The ticker's knocks at members that were judged failed.

ghost use Rattle.std.specs.Prelude.{◌≡◌, ℕ, ◌<◌, List, Option};
ghost use Rattle.std.specs.Int.{from_bool};
ghost use mathlib.Core.List.{IsPrefix};
ghost use Rattle.swim_ticker.specs.Knocking.{AreKnocks, IsKnocking, KnocksOn, LooksOn, at_knocking, sent_as};
ghost use Rattle.swim_work.specs.Posts.{Posted};

use std::sync::Wait;
use swim_history::{Opening, Table, table_of};
use swim_node::{Naming, Viewer};
use swim_rejoin::{KnockPing, Knocker};
use swim_wire::{PeriodNumber, encode};
use swim_work::{Post, RejoinLookup, TidingsBoard};

/// Who knocks in a life: a viewer of its member table, what it was shown last, the number of the period that runs, and
/// how many knocks there were.
#[derive(Drop)]
pub(crate) struct Knocking<N: Naming> {
    pub(crate) viewer: Viewer<N>,
    pub(crate) knocker: Knocker,
    // Before the first look it is the table of the opening.
    pub(crate) table: Table,
    pub(crate) number: u64,
    pub(crate) knocks: u64,
}

impl<N: Naming> Knocking<N> {
    /// No period started yet.
    #[tactic(auto, using(crate::proofs::Knocked::none_knocked))]
    pub(crate) fn new(opening: &Opening, viewer: Viewer<N>) -> Knocking<N>
        requires { opening.now ≡ N.opening }
        ensures knocking { (asked : List ℕ) (posted : Option (List Posted)) → IsKnocking N.opening 0 asked posted
            (at_knocking result.knocker result.viewer result.table.items result.number asked posted result.knocks) }
    {
        Knocking {
            viewer,
            knocker: Knocker::new(opening.me(), opening.version()),
            table: table_of(opening.rows()),
            number: opening.last(),
            knocks: 0,
        }
    }

    /// A tick passed, with which a period starts, or doesn't. In any case it's time for the receiver to look.
    pub(crate) fn pass<O: Post, R: Wait>(
        &mut self,
        rt: &R,
        board: &TidingsBoard,
        lookup: &mut RejoinLookup<'_>,
        post: &mut O,
        is_started: bool,
    )
        ensures { KnocksOn N.opening (from_bool is_started)
            (at_knocking self.old.knocker self.old.viewer self.old.table.items self.old.number lookup.old
            (O.posted post.old) self.old.knocks)
            (at_knocking self.new.knocker self.new.viewer self.new.table.items self.new.number lookup.new
            (O.posted post.new) self.new.knocks) }
    {
        if is_started {
            self.start(rt, board, lookup, post);
        } else {
            board.make_due();
        }
    }

    /// A period starts, by the rule that is in force now: the receiver is told of it, and of the knock that is due, if
    /// one is, before that is sent.
    fn start<O: Post, R: Wait>(
        &mut self,
        rt: &R,
        board: &TidingsBoard,
        lookup: &mut RejoinLookup<'_>,
        post: &mut O,
    )
        ensures { KnocksOn N.opening 1
            (at_knocking self.old.knocker self.old.viewer self.old.table.items self.old.number lookup.old
            (O.posted post.old) self.old.knocks)
            (at_knocking self.new.knocker self.new.viewer self.new.table.items self.new.number lookup.new
            (O.posted post.new) self.new.knocks) }
    {
        let rejoin = lookup.rejoin();
        look(&mut self.viewer, &mut self.table, rejoin > 0);
        let number = self.number.saturating_add(1);
        let period = period_of(number);
        let rows = self.table.as_slice();
        let knock = board.begin(rt, &mut self.knocker, rejoin, rows, period);
        board.make_due();
        let count = send(rt, post, &knock);
        let knocks = self.knocks.saturating_add(count);
        self.number = number;
        self.knocks = knocks;
    }
}

/// Looks at the member table, if somebody is to look at it. Where none is shown, the one that was shown last stays.
#[tactic(auto, using(swim_node::proofs::Prefixes::begins_itself))]
fn look<N: Naming>(viewer: &mut Viewer<N>, table: &mut Table, is_open: bool)
    ensures later { IsPrefix viewer.old viewer.new }
    ensures look { LooksOn N.opening viewer.old table.old.items viewer.new table.new.items }
{
    if is_open {
        let _is_shown = viewer.look(table);
    }
}

/// The period with that number.
fn period_of(number: u64) -> PeriodNumber
    requires { 0 < number }
    ensures { result ≡ number }
{
    match PeriodNumber::new(number) {
        Some(period) => period,
        None => PeriodNumber::default(),
    }
}

/// Sends a knock, if there is one. How many there were. That it can't be sent changes nothing: the next one is due
/// soon.
#[tactic(auto, using(crate::proofs::Knocked::no_knock, crate::proofs::Knocked::one_knock))]
fn send<R: Wait, O: Post>(rt: &R, post: &mut O, knock: &Option<KnockPing>) -> u64
    ensures { AreKnocks (sent_as knock.now) (O.posted post.old) (O.posted post.new) result }
{
    match knock {
        Some(knock) => {
            let _is_taken = post.send(rt, encode(&knock.message).as_slice(), knock.peer);
            1
        }
        None => 0,
    }
}
