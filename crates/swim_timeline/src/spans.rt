//! Which ticks of a run a picture shows.

ghost use Rattle.std.specs.Prelude.{◌≡◌, ◌*◌, ◌+◌, ◌<◌, ◌≤◌, ◌^◌, IfOk, None, Some};
ghost use Rattle.swim_history.specs.Clock.{period_number, ticks};
ghost use Rattle.swim_history.specs.Judgement.{judgements};
ghost use Rattle.swim_timeline.specs.Spans.{first_tick, judged_at, judged_last, periods_before, span_around, span_from};
ghost use Rattle.swim_timeline.specs.Spans.{span_of, span_of_periods, was_judged};

use std::alloc::AllocError;
use swim_history::{Journal, Judged, Opening};
use swim_wire::Id;

/// How many periods a picture shows at the most.
pub const MOST_PERIODS: u32 = 400;

/// How many periods a picture shows before the one at whose end a member was judged, and behind it.
pub const PERIODS_ASIDE: u32 = 5;

/// Which periods of a run a picture shows.
#[derive(Clone, Copy, Debug, PartialEq, Eq)]
pub enum View {
    /// The first ones, [`MOST_PERIODS`] of them, and what was before them.
    Start,
    /// Those from the one with this number on, [`MOST_PERIODS`] of them.
    From(u64),
    /// The one at whose end this member was judged failed last, and [`PERIODS_ASIDE`] before it and behind it.
    Around(Id),
    /// The one with this number, at whose end this member was judged failed, and [`PERIODS_ASIDE`] before it and behind it.
    At(Id, u64),
}

/// Some ticks of a run, with what happened at each and up to the next one.
#[derive(Clone, Copy, Debug, PartialEq, Eq)]
pub struct Span {
    /// The first of them. Before the first tick of a run, which is tick 1, it is 0.
    pub first: u32,
    /// The last of them, which the run may not come to.
    pub until: u64,
}

impl Span {
    /// The ticks that a picture shows of a run; `None` where the run has no such period, or didn't judge the member then.
    /// `Err` only where memory was refused.
    pub fn of(journal: &Journal, view: View) -> Result<Option<Span>, AllocError>
        ensures { IfOk result (λ span. span ≡ span_of journal.now.opening journal.now.past view) }
    {
        match view {
            View::Start => Ok(Some(of_periods(journal.opening(), 0, MOST_PERIODS))),
            View::From(number) => Ok(from(journal, number, MOST_PERIODS)),
            View::Around(member) => {
                let judged = journal.judgements()?;
                Ok(around(journal, last_of(judged.as_slice(), member)))
            }
            View::At(member, number) => {
                let judged = journal.judgements()?;
                Ok(around(journal, at(judged.as_slice(), member, number)))
            }
        }
    }
}

/// So many periods from a tick on.
fn of_periods(opening: &Opening, first: u32, count: u32) -> Span
    ensures { result ≡ span_of_periods opening.now first count }
{
    let ticks = u64::from(count) * u64::from(opening.period());
    Span {
        first,
        until: u64::from(first.saturating_sub(1)) + ticks,
    }
}

/// So many periods from that one on, if it started.
fn from(journal: &Journal, number: u64, count: u32) -> Option<Span>
    ensures { result ≡ span_from journal.now.opening journal.now.past number count }
{
    let opening = journal.opening();
    if number <= opening.last() || number > journal.last_number() {
        return None;
    }
    // So many ticks there are at least, and no more of them than entries.
    let _entries = journal.len();
    let before = (number - (opening.last() + 1)) * u64::from(opening.period());
    Some(of_periods(opening, before as u32 + 1, count))
}

/// The periods round that one, if there is one.
fn around(journal: &Journal, number: Option<u64>) -> Option<Span>
    ensures { result ≡ span_around journal.now.opening journal.now.past number }
{
    let number = number?;
    let before = periods_before(journal.opening(), number);
    from(
        journal,
        number - u64::from(before),
        before + 1 + PERIODS_ASIDE,
    )
}

/// How many periods are shown before that one.
fn periods_before(opening: &Opening, number: u64) -> u32
    ensures exact { result ≡ periods_before opening.now number }
    ensures most { result ≤ 5 }
    ensures less { result ≤ number }
{
    let earlier = number.saturating_sub(opening.last()).saturating_sub(1);
    u64::from(PERIODS_ASIDE).min(earlier) as u32
}

/// The period at whose end a member was judged last.
fn last_of(judged: &[Judged], member: Id) -> Option<u64>
    ensures { result ≡ judged_last member None judged.now }
{
    let mut found = None;
    for judged in judged {
        if judged.member == member {
            found = Some(judged.number);
        }
    }
    found
}

/// The period with this number, if the member was judged at its end.
fn at(judged: &[Judged], member: Id, number: u64) -> Option<u64>
    ensures { result ≡ judged_at member number judged.now }
{
    if was_judged(judged, member, number) {
        Some(number)
    } else {
        None
    }
}

/// Whether the member was judged at the end of the period with this number.
fn was_judged(judged: &[Judged], member: Id, number: u64) -> bool
    ensures { result ≡ was_judged member number judged.now }
{
    judged.iter().any(|judged| judged.member == member && judged.number == number)
}
