//! Lives of a daemon, one after the other.

ghost use Rattle.std.specs.Prelude.{◌≡◌, ◌↔◌, IsTrue, None};
ghost use Rattle.swim_evidence.specs.Following.{Follows, NextDraw, NextLife};

use swim_history::{Opening, Row};
use thiserror::Error;

/// From what a life draws orders and places.
#[derive(Clone, Copy, Debug, PartialEq, Eq)]
pub struct Draw {
    /// The seed.
    pub key: [u8; 32],
    /// The number of the life, whose stream of the seed it is.
    pub life: u64,
}

/// What the header of a journal file tells beside its opening.
#[derive(Clone, Copy, Debug, Default, PartialEq, Eq)]
pub struct Heading {
    /// How many entries the journal may have.
    pub limit: u32,
    /// From what it draws; `None` where it tells no seed.
    pub draw: Option<Draw>,
}

/// In what a life isn't the one that follows another. The first that applies is told.
#[derive(Clone, Copy, Debug, PartialEq, Eq, Error)]
pub enum Break {
    #[error("it is another member's")]
    Member,
    #[error("another number of relays is asked")]
    Relays,
    #[error("the timeout or the period is another")]
    Timing,
    #[error("the version of its own messages is another")]
    Version,
    /// Members, their addresses, their states or their order.
    #[error("the members aren't those that were left")]
    Rows,
    #[error("the last period number isn't the one that was left")]
    Last,
    #[error("the journal may have another number of entries")]
    Limit,
    #[error("the seed is another")]
    Seed,
    #[error("its life isn't the next")]
    Life,
}

/// In what an opening, and what stands beside it, isn't that of the life which follows one that left this: the opening
/// is what was left, the limit is the same, and where both tell from what they draw, the seed is the same and the life
/// the next. `None` where it is.
pub fn first_break(
    left: &Opening,
    before: &Heading,
    opening: &Opening,
    heading: &Heading,
) -> Option<Break>
    ensures { (result ≡ None) ↔ Follows left.now before.now opening.now heading.now }
{
    match opening_break(left, opening) {
        Some(met) => Some(met),
        None => heading_break(before, heading),
    }
}

/// In what an opening isn't what a life left.
#[tactic(auto, using(crate::proofs::Settings::same_setting))]
fn opening_break(left: &Opening, opening: &Opening) -> Option<Break>
    ensures { (result ≡ None) ↔ (opening.now ≡ left.now) }
{
    if opening.me() != left.me() {
        return Some(Break::Member);
    }
    if opening.k() != left.k() {
        return Some(Break::Relays);
    }
    if opening.rtt() != left.rtt() || opening.period() != left.period() {
        return Some(Break::Timing);
    }
    if opening.version() != left.version() {
        return Some(Break::Version);
    }
    if !are_same(opening.rows(), left.rows()) {
        return Some(Break::Rows);
    }
    if opening.last() != left.last() {
        return Some(Break::Last);
    }
    None
}

/// Whether these are the same rows in the same order.
fn are_same(rows: &[Row], others: &[Row]) -> bool
    ensures { IsTrue result ↔ (rows.now ≡ others.now) }
{
    match rows {
        [] => others.is_empty(),
        [first, more @ ..] => match others {
            [] => false,
            [other, others @ ..] => is_same(*first, *other) && are_same(more, others),
        },
    }
}

fn is_same(row: Row, other: Row) -> bool
    ensures { IsTrue result ↔ (row ≡ other) }
{
    row == other
}

/// The same of what stands beside the opening. Where one of them tells no seed, the seeds aren't compared.
fn heading_break(before: &Heading, heading: &Heading) -> Option<Break>
    ensures { (result ≡ None) ↔ NextLife before.now heading.now }
{
    if heading.limit != before.limit {
        return Some(Break::Limit);
    }
    match (&before.draw, &heading.draw) {
        (Some(before), Some(draw)) => draw_break(before, draw),
        _ => None,
    }
}

fn draw_break(before: &Draw, draw: &Draw) -> Option<Break>
    ensures { (result ≡ None) ↔ NextDraw before.now draw.now }
{
    if draw.key != before.key {
        return Some(Break::Seed);
    }
    if draw.life.checked_sub(1) != Some(before.life) {
        return Some(Break::Life);
    }
    None
}
