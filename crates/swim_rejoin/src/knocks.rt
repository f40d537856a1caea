//! The numbers of the last knocks at a member.

ghost use Rattle.std.specs.Prelude.{◌≡◌, ◌∷◌, take, replicate, nat_lt, count_by};
ghost use Rattle.swim_wire.specs.Ids.{has};

use swim_wire::PeriodNumber;

/// How many knocks at a member are remembered.
const LAST_KNOCKS: usize = 64;

/// The numbers of the last knocks at a member, the newest first, and zeros behind them: no period has the number 0.
#[derive(Clone, Copy)]
pub(crate) struct Knocks {
    numbers: [u64; LAST_KNOCKS],
}

impl Knocks {
    /// No knocks.
    pub(crate) fn none() -> Knocks
        ensures { result.numbers ≡ replicate LAST_KNOCKS 0 }
    {
        Knocks {
            numbers: [0; LAST_KNOCKS],
        }
    }

    /// One knock more. The oldest is forgotten where there are 64.
    pub(crate) fn add(&mut self, number: PeriodNumber)
        ensures { self.new.numbers ≡ number ∷ take 63 self.old.numbers }
    {
        self.numbers.rotate_right(1);
        self.numbers[0] = number.get();
    }

    /// Whether a knock had that number.
    pub(crate) fn has(&self, number: PeriodNumber) -> bool
        ensures { result ≡ has self.now.numbers number }
    {
        let number = number.get();
        self.numbers.iter().any(|knock| *knock == number)
    }

    /// How many knocks were later than that period.
    pub(crate) fn count_after(&self, period: u64) -> usize
        ensures { result ≡ count_by (nat_lt period) self.now.numbers }
    {
        self.numbers.iter().filter(|knock| **knock > period).count()
    }
}
