//! What is found in a journal. A place is how many entries stand before an entry.

use arrayvec::ArrayVec;
use swim_history::{MOST_RELAYS, Relay};
use swim_wire::Id;

/// Members that were asked to ping the aim of a period.
#[derive(Debug, PartialEq, Eq, Drop)]
pub struct Ask {
    /// The place of the entry.
    pub place: u32,
    pub relays: ArrayVec<Relay, MOST_RELAYS>,
}

/// An ack of this member's own probes that wasn't one of the aim for the period in which it came.
#[derive(Clone, Copy, Debug, PartialEq, Eq)]
pub struct Stray {
    /// The place of the entry.
    pub place: u32,
    /// Whose ack it was.
    pub member: Id,
    /// The number of the period that it was for.
    pub number: u64,
}

/// What a judgement rests on.
#[derive(Debug, PartialEq, Eq, Drop)]
pub struct Evidence {
    /// The member that was judged failed.
    pub member: Id,
    /// The number of the period at whose end it was.
    pub number: u64,
    /// The place of the start that probed it.
    pub probed: u32,
    /// Who was asked in that period.
    pub ask: Option<Ask>,
    /// The place of the start that judged it.
    pub judged: u32,
}

/// What an entry tells of judgements.
#[derive(Debug, PartialEq, Eq, Drop)]
pub enum Finding {
    /// A member was judged failed.
    Judged(Evidence),
    /// An ack of the member that was judged last came in the period at whose end it was, and was for another period.
    Other(Stray),
    /// An ack came of a member that had been judged failed at the end of the period that it was for.
    Late(Stray),
}

/// What the confirmed entries of a journal tell.
#[derive(Debug, Drop)]
pub struct Findings {
    /// How many periods began.
    pub periods: usize,
    /// What was found, in order.
    pub findings: Vec<Finding>,
}
