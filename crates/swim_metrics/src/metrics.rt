//! What is counted of a node's journals, and what is known of the members.

ghost use Rattle.std.specs.Prelude.{◌≡◌, ℕ, List, [], ◌∷◌};
ghost use Rattle.swim_history.specs.declared.entries.Entry.{Entry};
ghost use Rattle.swim_history.specs.Setting.{Setting, IsSetting};
ghost use Rattle.swim_history.specs.Run.{IsRun};
ghost use Rattle.swim_events.specs.Watched.{Lived, lived_on};
ghost use Rattle.swim_events.specs.Watching.{known};
ghost use Rattle.swim_metrics.specs.Counting.{failed_in, up_in};
ghost use Rattle.swim_metrics.specs.Following.{Follows, begun, known_then, measures_of};
ghost use Rattle.swim_metrics.specs.FailedFor.{failed_for, periods_since, state_in};
ghost use Rattle.swim_metrics.specs.Members.{members_of, tally_in};
ghost use Rattle.swim_metrics.specs.OddSenders.{senders_of};

use crate::entry_counts::EntryCounts;
use crate::measures::Measures;
use crate::member_figures::{
    MemberFigures, MemberRows, carried, carry_over, copied_members, count_for_members, tally_in,
};
use crate::odd_senders::OddSenders;
use crate::periods::Period;
use crate::tests_of_entries::is_late;
use std::marker::Model;
use swim_events::Watching;
use swim_history::{Call, Opening, Reply, Row, RowState};
use swim_wire::Id;

/// What is counted of a node's journals over all its lives, read entry by entry, and the members that are known. A
/// contract sees both, how many ticks old the period that runs is, whether its aim was heard, what was counted of each
/// member, this member's id, and messages whose senders aren't as the table has them.
#[derive(Drop)]
pub struct Metrics {
    counts: EntryCounts,
    period: Period,
    watching: Watching,
    members: MemberRows,
    me: Id,
    odd: OddSenders,
}

impl Model for Metrics {
    ghost use Rattle.swim_metrics.specs.Following.{Measured};

    ghost Value = { Measured };

    ghost view = { λ m. record {
      counts = m.counts;
      waited = m.period.waited;
      heard = m.period.heard;
      known = m.watching;
      members = m.members.items;
      me = m.me;
      odd = m.odd;
    } };
}

impl Metrics {
    /// The first life begins. It takes no memory.
    pub fn new(opening: &Opening) -> Metrics
        ensures follows { (number : ℕ) → Follows result (begun number opening.now []) }
        ensures known { result.known ≡ known opening.now [] }
        ensures members { (number : ℕ) → result.members ≡ members_of (begun number opening.now []) }
        ensures me { result.me ≡ opening.now.me }
        ensures odd { (number : ℕ) → result.odd ≡ senders_of (begun number opening.now []) }
    {
        let mut counts = EntryCounts::new();
        counts.begin();
        let watching = Watching::new(opening);
        let members = carried(&[], watching.rows());
        Metrics {
            counts,
            period: Period::new(),
            watching,
            members,
            me: opening.me(),
            odd: OddSenders::new(),
        }
    }

    /// The next life begins. Counts go on.
    pub fn begins(&mut self, opening: &Opening)
        ensures follows { (number : ℕ) (lives : List Lived) → Follows self.old lives →
            Follows self.new (begun number opening.now lives) }
        ensures known { self.new.known ≡ known opening.now [] }
        ensures members { (number : ℕ) (lives : List Lived) → self.old.members ≡ members_of lives →
            self.new.members ≡ members_of (begun number opening.now lives) }
        ensures me { self.new.me ≡ opening.now.me }
        ensures odd { (number : ℕ) (lives : List Lived) → self.old.odd ≡ senders_of lives →
            self.new.odd ≡ senders_of (begun number opening.now lives) }
    {
        self.me = opening.me();
        self.counts.begin();
        self.period = Period::new();
        self.watching = Watching::new(opening);
        self.members = carried(self.members.as_slice(), self.watching.rows());
    }

    /// Goes one entry on. If the entries are those of a run, what is known of the members is the run's, and what was
    /// counted of each of them is what the entries since it came into the table say.
    pub fn read(&mut self, call: &Call, reply: &Reply)
        ensures follows { (life : Lived) (older : List Lived) (e : Entry) → e.call ≡ call.now → e.reply ≡ reply.now →
            Follows self.old (life ∷ older) → Follows self.new (lived_on life e ∷ older) }
        ensures known { self.new.known ≡ known_then call.now reply.now self.old.known }
        ensures run { (o : Setting) (h : List Entry) (e : Entry) → IsSetting o → IsRun o (e ∷ h) →
            e.call ≡ call.now → e.reply ≡ reply.now → self.old.known ≡ known o h → self.new.known ≡ known o (e ∷ h) }
        ensures members { (life : Lived) (older : List Lived) (e : Entry) → IsSetting life.opening →
            IsRun life.opening (e ∷ life.past) → e.call ≡ call.now → e.reply ≡ reply.now →
            self.old.known ≡ known life.opening life.past → self.old.members ≡ members_of (life ∷ older) →
            self.new.members ≡ members_of (lived_on life e ∷ older) }
        ensures me { self.new.me ≡ self.old.me }
        ensures odd { (life : Lived) (older : List Lived) (e : Entry) → e.call ≡ call.now →
            self.old.known ≡ known life.opening life.past → self.old.me ≡ life.opening.me →
            self.old.odd ≡ senders_of (life ∷ older) → self.new.odd ≡ senders_of (lived_on life e ∷ older) }
    {
        let wait = self.period.wait_ended(call, reply);
        let late = is_late(call, reply, self.watching.number());
        self.counts.add(call, reply, wait, late);
        self.period = self.period.after(call, reply);
        self.odd.add(self.me, self.watching.rows(), call);
        count_for_members(&mut self.members, call, reply);
        let change = self.watching.next(call, reply);
        carry_over(&mut self.members, &change, self.watching.rows());
    }

    /// What is told of all that was read.
    pub fn measures(&self) -> Measures
        ensures { result ≡ measures_of self.now }
    {
        let rows = self.watching.rows();
        Measures {
            counts: self.counts,
            up: up_in(rows),
            failed: failed_in(rows),
            number: self.watching.number(),
            members: copied_members(self.members.as_slice()),
            odd: self.odd,
        }
    }

    /// What is told of each member of the table, ascending by id.
    pub fn members(&self) -> &[MemberFigures]
        ensures { result.now ≡ self.now.members }
    {
        self.members.as_slice()
    }

    /// The last period number used: that of the period that runs, if any.
    pub fn number(&self) -> u64
        ensures { result ≡ self.now.known.number }
    {
        self.watching.number()
    }

    /// In how many of the last periods in a row in which a member was probed acks of it came from relays alone.
    pub fn relayed(&self, member: Id) -> u64
        ensures { result ≡ (tally_in member self.now.members).relayed }
    {
        tally_in(member, self.members.as_slice()).relayed
    }

    /// For how many periods a member is failed, if it is known and failed.
    pub fn failed_for(&self, member: Id) -> Option<u64>
        ensures { result ≡ failed_for member self.now.known }
    {
        periods_since(
            self.watching.number(),
            state_in(self.watching.rows(), member),
        )
    }
}

/// How many rows are of members that are up.
fn up_in(rows: &[Row]) -> u64
    ensures { result ≡ up_in rows.now }
{
    rows.iter().filter(|row| row.state == RowState::Up).count() as u64
}

/// How many are of members that failed.
fn failed_in(rows: &[Row]) -> u64
    ensures { result ≡ failed_in rows.now }
{
    rows.iter().filter(|row| row.state != RowState::Up).count() as u64
}

/// The state of a member, if it is known.
fn state_in(rows: &[Row], member: Id) -> Option<RowState>
    ensures { result ≡ state_in member rows.now }
{
    rows.iter()
        .find(|row| row.id == member)
        .map(|row| row.state)
}

/// For how many periods a member that stands so is failed, in that of this number.
fn periods_since(number: u64, state: Option<RowState>) -> Option<u64>
    ensures { result ≡ periods_since number state }
{
    match state {
        Some(RowState::Failed(since)) => Some(number.saturating_sub(since)),
        _ => None,
    }
}
