//! Whether a member's clock went on while it was probed.

ghost use Rattle.std.specs.Prelude.{◌≡◌, ℕ, List, None};
ghost use Rattle.swim_history.specs.Clock.{ticks as ticks_of};
ghost use Rattle.swim_history.specs.declared.entries.Entry.{Entry};
ghost use Rattle.swim_trace.specs.Beats.{Follows, beats, from_member, reaches};
ghost use Rattle.swim_trace.specs.declared.beats.Beat.{Beat};
ghost use Rattle.swim_trace.specs.Presence.{beat_at, beat_before, bracket, due_from, pace_of, presence, presence_by};
ghost use Rattle.swim_trace.specs.Presence.{until_end, until_ping};

use crate::acts::ProbeName;
use crate::beats::{Beat, Reach, Rhythm};
use swim_history::Opening;

/// The pings of an initiator that came to a target round a probe: the last one of an earlier period, and the first one
/// behind it that isn't of an earlier period.
#[derive(Clone, Copy, Debug, PartialEq, Eq)]
pub struct Bracket {
    pub before: Option<Beat>,
    pub after: Option<Beat>,
}

/// How a target's clock went, beside that of the initiator.
#[derive(Clone, Copy, Debug, PartialEq, Eq)]
pub struct Pace {
    /// The last ping of an earlier period that came to the target.
    pub before: Beat,
    /// How many ticks the target had from there to the next ping, or to the end of its entries.
    pub had: u64,
    /// How many the initiator had meanwhile: from the one start to the other.
    pub due: u64,
}

/// Whether a target's clock went on while it was probed. It did where it had no fewer ticks than the initiator, but for
/// as many as a timeout has.
#[derive(Clone, Copy, Debug, PartialEq, Eq)]
pub enum Presence {
    /// No ping of an earlier period came, or the target's entries end within the period.
    Unknown,
    /// It went on until the next ping came, or to the end of the period.
    Ran(Pace),
    /// It had fewer when the next ping came.
    StoodStill(Pace),
    /// It had fewer to the end of its entries than the initiator to the start of the period.
    Ended(Pace),
}

impl Rhythm {
    /// Whether the clock of the member that this is of went on while that member probed it, whose opening this is. The
    /// pings round the probe are found by a binary search.
    pub fn presence(&self, opening: &Opening, probe: &ProbeName) -> Presence
        ensures { (me : ℕ) (h : List Entry) → Follows me h self.now →
            result ≡ presence opening.now.period opening.now.rtt probe.now (beats me h) (ticks_of h) }
    {
        let bracket = pings_round(self.kept_of(probe.initiator), probe);
        presence_by(opening, probe, &bracket, self.ticks())
    }
}

/// Whether a clock went on between the pings round a probe, or to the end of entries that have that many ticks.
fn presence_by(opening: &Opening, probe: &ProbeName, bracket: &Bracket, ticks: u64) -> Presence
    ensures { result ≡ presence_by opening.now.period opening.now.rtt probe.now bracket.now ticks }
{
    let Some(before) = bracket.before else {
        return Presence::Unknown;
    };
    let period = u64::from(opening.period());
    let timeout = u64::from(opening.rtt());
    match bracket.after {
        Some(after) => until_ping(period, timeout, &before, &after),
        None => until_end(period, timeout, &before, probe.number, ticks),
    }
}

/// The pings round a probe, among those of its initiator: the first whose greatest number so far isn't less is the first
/// that isn't of an earlier period.
fn pings_round(kept: &[Reach], probe: &ProbeName) -> Bracket
    ensures { (all : List Beat) → kept.now ≡ reaches 0 (from_member probe.now.initiator all) →
        result ≡ bracket probe.now None all }
{
    let number = probe.number;
    let place = kept.partition_point(|reach| reach.greatest < number);
    Bracket {
        before: beat_before(kept, place),
        after: beat_at(kept, place),
    }
}

/// The ping before a place, if there is one.
fn beat_before(kept: &[Reach], place: usize) -> Option<Beat>
    ensures { result ≡ beat_before None kept.now place }
{
    if place == 0 {
        return None;
    }
    beat_at(kept, place - 1)
}

/// The ping at a place, if there is one.
fn beat_at(kept: &[Reach], place: usize) -> Option<Beat>
    ensures { result ≡ beat_at kept.now place }
{
    match kept.get(place) {
        Some(reach) => Some(reach.beat),
        None => None,
    }
}

/// Whether the clock went on from one ping to the next.
fn until_ping(period: u64, timeout: u64, before: &Beat, after: &Beat) -> Presence
    ensures { result ≡ until_ping period timeout before.now after.now }
{
    let had = after.ticks.saturating_sub(before.ticks);
    let due = due_from(period, before, after.number);
    let pace = pace_of(before, had, due);
    if due <= had.saturating_add(timeout) {
        Presence::Ran(pace)
    } else {
        Presence::StoodStill(pace)
    }
}

/// Whether it went on from a ping to the end of the entries, which have that many ticks.
fn until_end(period: u64, timeout: u64, before: &Beat, number: u64, ticks: u64) -> Presence
    ensures { result ≡ until_end period timeout before.now number ticks }
{
    let had = ticks.saturating_sub(before.ticks);
    let begun = due_from(period, before, number);
    let due = begun.saturating_add(period);
    if due <= had.saturating_add(timeout) {
        return Presence::Ran(pace_of(before, had, due));
    }
    if begun <= had.saturating_add(timeout) {
        return Presence::Unknown;
    }
    Presence::Ended(pace_of(before, had, begun))
}

/// How the clocks went from that ping on.
fn pace_of(before: &Beat, had: u64, due: u64) -> Pace
    ensures { result ≡ pace_of before.now had due }
{
    Pace {
        before: *before,
        had,
        due,
    }
}

/// How many ticks the initiator had from the start that sent a ping to that of the period of this number.
fn due_from(period: u64, before: &Beat, number: u64) -> u64
    ensures { result ≡ due_from period before.now number }
{
    number.saturating_sub(before.number).saturating_mul(period)
}
