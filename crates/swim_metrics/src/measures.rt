//! What is told of a node's journals at one moment.

ghost use Rattle.std.specs.Prelude.{◌≡◌};

use crate::entry_counts::EntryCounts;
use crate::member_figures::{MemberRows, copied_members};
use crate::odd_senders::OddSenders;

/// What was counted of a node's journals over all its lives, and how its members stand.
#[derive(Debug, PartialEq, Eq, Drop)]
pub struct Measures {
    pub counts: EntryCounts,
    /// How many members are up.
    pub up: u64,
    /// How many members failed.
    pub failed: u64,
    /// The last period number used: that of the period that runs, if any.
    pub number: u64,
    /// The other members, ascending by id.
    pub members: MemberRows,
    /// Messages whose senders aren't as the member table has them.
    pub odd: OddSenders,
}

impl Measures {
    /// The same.
    pub fn copy(&self) -> Measures
        ensures { result ≡ self.now }
    {
        Measures {
            counts: self.counts,
            up: self.up,
            failed: self.failed,
            number: self.number,
            members: copied_members(self.members.as_slice()),
            odd: self.odd,
        }
    }
}
