//! What a daemon counts of its lives, call by call.

ghost use Rattle.std.specs.Prelude.{◌≡◌, ℕ, List, [], ◌∷◌, if◌then◌else◌};
ghost use Rattle.std.specs.Option.{option_map};
ghost use Rattle.swim_history.specs.declared.entries.Entry.{Entry};
ghost use Rattle.swim_history.specs.Run.{IsRun};
ghost use Rattle.swim_history.specs.Setting.{Setting, IsSetting};
ghost use Rattle.swim_events.specs.Watched.{Lived, lived_on};
ghost use Rattle.swim_work.specs.Ends.{both};
ghost use Rattle.swim_metrics.specs.Following.{begun};
ghost use Rattle.swim_metrics.specs.LastHeard.{Tell};
ghost use Rattle.swim_reports.specs.Booked.{AreCounted, acked_in, counted_of, failed_by, is_own_join, relayed_by};
ghost use Rattle.swim_reports.specs.Booked.{told_alone, told_of};
ghost use Rattle.swim_reports.specs.Totals.{totals_with};

use crate::bulletins::Counted;
use crate::happenings::Happening;
use crate::totals::Totals;
use swim_history::{Call, Change, Opening, Reply};
use swim_metrics::{Hearings, Metrics};
use swim_node::Followed;
use swim_recorder::Standing;
use swim_wire::Id;
use swim_work::Metered;

/// The seat of the receiver, by which the daemon lets members join again.
const RECEIVER: u8 = 0;

/// After how many periods in a row the log tells that a member was heard by relays alone.
const ROUNDS_ALONE: u64 = 10;

/// How a life stands of which nothing was read.
const NOTHING: Standing = Standing {
    read: 0,
    metered: Metered {
        calls: 0,
        unsent: 0,
        wire: 0,
        refused: 0,
        knocks: 0,
    },
    watchers: 0,
    lost: 0,
};

/// What was counted. It goes on over all lives.
#[derive(Drop)]
pub struct Book {
    // None before the first life.
    metrics: Option<Metrics>,
    hearings: Hearings,
    own_joins: u64,
    // How this life stands, and what was counted beside the calls of those before it.
    standing: Standing,
    over: Totals,
}

impl Book {
    /// Nothing was counted yet.
    pub fn new() -> Book {
        Book {
            metrics: None,
            hearings: Hearings::new(),
            own_joins: 0,
            standing: NOTHING,
            over: Totals::none(),
        }
    }

    /// A life begins. Counts go on.
    #[tactic(auto, using(crate::proofs::Booking::totals_go_on))]
    pub fn begins(&mut self, opening: &Opening)
        ensures counted { (number : ℕ) (lives : List Lived) → AreCounted self.old.metrics lives →
            AreCounted self.new.metrics (begun number opening.now lives) }
        ensures heard { (o : Setting) → Tell self.new.hearings o [] }
        ensures joins { self.new.own_joins ≡ self.old.own_joins }
        ensures totals { totals_with self.new.over self.new.standing ≡ totals_with self.old.over self.old.standing }
    {
        self.count_life(opening);
        self.hearings = Hearings::new();
        self.over = self.over.with(self.standing);
        self.standing = NOTHING;
    }

    /// Has the metrics go on with a life, or begin with the first.
    fn count_life(&mut self, opening: &Opening)
        ensures counted { (number : ℕ) (lives : List Lived) → AreCounted self.old.metrics lives →
            AreCounted self.new.metrics (begun number opening.now lives) }
        ensures same { self.new ≡ record self.old { metrics = self.new.metrics } }
    {
        match &mut self.metrics {
            Some(metrics) => metrics.begins(opening),
            None => self.metrics = Some(Metrics::new(opening)),
        }
    }

    /// Counts a call.
    pub fn read(&mut self, next: &Followed, change: &Option<Change>)
        ensures counted { (life : Lived) (older : List Lived) (e : Entry) → e.call ≡ next.now.kept.call →
            e.reply ≡ next.now.kept.reply → AreCounted self.old.metrics (life ∷ older) →
            AreCounted self.new.metrics (lived_on life e ∷ older) }
        ensures heard { (o : Setting) (h : List Entry) (e : Entry) → IsSetting o → IsRun o (e ∷ h) →
            e.call ≡ next.now.kept.call → e.reply ≡ next.now.kept.reply → Tell self.old.hearings o h →
            Tell self.new.hearings o (e ∷ h) }
        ensures joins { self.new.own_joins
            ≡ both self.old.own_joins (if is_own_join next.now.seat change.now then 1 else 0) }
        ensures rest { (self.new.over ≡ self.old.over) × (self.new.standing ≡ self.old.standing) }
    {
        let joins = u64::from(is_own_join(next.seat, change));
        self.own_joins = self.own_joins.saturating_add(joins);
        self.count_call(next);
        self.hearings.read(&next.kept.call, &next.kept.reply);
    }

    /// Has the metrics go on with a call.
    fn count_call(&mut self, next: &Followed)
        ensures counted { (life : Lived) (older : List Lived) (e : Entry) → e.call ≡ next.now.kept.call →
            e.reply ≡ next.now.kept.reply → AreCounted self.old.metrics (life ∷ older) →
            AreCounted self.new.metrics (lived_on life e ∷ older) }
        ensures same { self.new ≡ record self.old { metrics = self.new.metrics } }
    {
        if let Some(metrics) = &mut self.metrics {
            metrics.read(&next.kept.call, &next.kept.reply);
        }
    }

    /// How the life stands that runs.
    pub fn stands(&mut self, standing: Standing)
        ensures { self.new ≡ record self.old { standing = standing } }
    {
        self.standing = standing;
    }

    /// What the log tells of a change by a call that isn't counted yet.
    pub fn happening(&self, seat: u8, change: &Change) -> Happening
        ensures { result ≡ told_of seat change.now self.now.metrics self.now.hearings }
    {
        match *change {
            Change::Up(id, at) => match self.failed_for(id) {
                Some(after) if seat == RECEIVER => Happening::JoinedAgain { id, after },
                _ => Happening::Joined { id, at },
            },
            Change::Failed(id, period) => Happening::Judged {
                id,
                period,
                heard: self.hearings.last(id),
            },
            Change::Gone(id) => Happening::Removed { id },
        }
    }

    /// In how many periods in a row the member of which a call is an ack in time was heard by relays alone, by what was
    /// counted until now; 0 of any other call.
    pub fn relayed(&self, next: &Followed) -> u64
        ensures { result ≡ relayed_by next.now.kept.call next.now.kept.reply self.now.metrics }
    {
        match (acked(next), &self.metrics) {
            (Some(id), Some(metrics)) => metrics.relayed(id),
            _ => 0,
        }
    }

    /// What was counted until now, once a life has begun.
    pub fn counted(&self) -> Option<Counted>
        ensures { result
            ≡ option_map (counted_of self.now.standing self.now.over self.now.own_joins) self.now.metrics }
    {
        let now = &self.standing;
        let metrics = self.metrics.as_ref()?;
        Some(Counted {
            measures: metrics.measures(),
            behind: now.metered.calls.saturating_sub(now.read),
            totals: self.over.with(self.standing),
            watchers: now.watchers,
            own_joins: self.own_joins,
        })
    }

    /// For how many periods a member is failed, if it is.
    fn failed_for(&self, id: Id) -> Option<u64>
        ensures { result ≡ failed_by self.now.metrics id }
    {
        self.metrics.as_ref()?.failed_for(id)
    }
}

/// The member of which a call is an ack that came in time, if it is one.
pub fn acked(next: &Followed) -> Option<Id>
    ensures { result ≡ acked_in next.now.kept.call next.now.kept.reply }
{
    match (&next.kept.call, &next.kept.reply) {
        (Call::Hear(_, ack), Reply::Heard) => Some(ack.target),
        _ => None,
    }
}

/// What the log tells of an ack in time of a member that was heard by relays alone in so many periods in a row before
/// it, and in so many with it.
pub fn told_alone(acked: Option<Id>, before: u64, after: u64) -> Option<Happening>
    ensures { result ≡ told_alone acked before after }
{
    match acked {
        Some(id) if before < ROUNDS_ALONE && after == ROUNDS_ALONE => Some(Happening::Relayed {
            id,
            rounds: ROUNDS_ALONE,
        }),
        _ => None,
    }
}

/// Whether a call of that seat, which changed the member table so, is a join that the daemon made by itself.
pub fn is_own_join(seat: u8, change: &Option<Change>) -> bool
    ensures { result ≡ is_own_join seat change.now }
{
    matches!(change, Some(Change::Up(_, _))) && seat == RECEIVER
}
