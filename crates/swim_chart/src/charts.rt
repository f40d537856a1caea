//! What a picture of a probe is drawn from.

use crate::roles::Role;
use swim_trace::{ProbeName, Way};
use swim_wire::Id;

/// The lane of a member.
#[derive(Clone, Copy, Debug, PartialEq, Eq)]
pub struct Lane {
    /// How many lanes are above it: the first is the initiator's, the second the target's, and the relays follow in the
    /// order in which they were asked.
    pub place: u32,
    pub member: Id,
}

/// A datagram of a probe.
#[derive(Clone, Copy, Debug, PartialEq, Eq)]
pub struct Arrow {
    pub role: Role,
    /// The way that it went, and what became of it.
    pub way: Way,
    /// Whether it came after the end of the period.
    pub is_late: bool,
    /// The entry of the sender that sent it, if one is known.
    pub sent: Option<u32>,
    /// The entry of the addressee that heard it, if there is one.
    pub heard: Option<u32>,
}

/// A probe after which its target was judged failed.
#[derive(Clone, Copy)]
pub struct Chart<'c> {
    pub probe: ProbeName,
    /// The entry of the initiator that judged the target.
    pub judged: u32,
    /// How many relays were asked.
    pub relays: u32,
    /// What is concluded of the probe.
    pub conclusion: &'c str,
    pub lanes: &'c [Lane],
    pub arrows: &'c [Arrow],
}
