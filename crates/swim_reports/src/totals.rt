//! What was counted of lives beside their calls.

ghost use Rattle.std.specs.Prelude.{◌≡◌};
ghost use Rattle.swim_reports.specs.Totals.{totals_with};

use swim_recorder::Standing;

/// What was counted of lives beside their calls. Each count stops at 2^64-1.
#[derive(Clone, Copy)]
pub struct Totals {
    /// Datagrams that couldn't be sent.
    pub unsent: u64,
    /// Datagrams that came and are no message.
    pub wire: u64,
    /// Calls that were refused for want of memory.
    pub refused: u64,
    /// Knocks at members that were judged.
    pub knocks: u64,
    /// How many of those who watched didn't keep up.
    pub lost: u64,
}

impl Totals {
    /// Nothing was counted yet.
    pub fn none() -> Totals
        ensures { result ≡ record { unsent = 0; wire = 0; refused = 0; knocks = 0; lost = 0 } }
    {
        Totals {
            unsent: 0,
            wire: 0,
            refused: 0,
            knocks: 0,
            lost: 0,
        }
    }

    /// These, and those of a life that stands so.
    pub fn with(self, life: Standing) -> Totals
        ensures { result ≡ totals_with self life }
    {
        let Standing { metered, lost, .. } = life;
        Totals {
            unsent: self.unsent.saturating_add(metered.unsent),
            wire: self.wire.saturating_add(metered.wire),
            refused: self.refused.saturating_add(metered.refused),
            knocks: self.knocks.saturating_add(metered.knocks),
            lost: self.lost.saturating_add(lost),
        }
    }
}
