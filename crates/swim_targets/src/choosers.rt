//! Who chooses the order of a round, and the place of a joiner.

ghost use Rattle.std.specs.Prelude.{ℕ, List, ◌≤◌, IsPermutation};

use swim_wire::Id;

/// Chooses orders and places. What it chooses is a matter of each chooser: its two members say it.
pub trait Chooser: Drop + Send {
    /// The chooser before, ids, the order of them that it chooses, and the chooser after.
    ghost orders: { Self → List ℕ → List ℕ → Self → Type 0 };

    /// The chooser before, the last place there is, the place that it chooses, and the chooser after.
    ghost places: { Self → ℕ → ℕ → Self → Type 0 };

    /// Puts the ids into an order of its choice.
    fn order(&mut self, ids: &mut [Id])
        ensures permutation { IsPermutation ids.old ids.new }
        ensures drawn { orders self.old ids.old ids.new self.new };

    /// A place of its choice, from 0 to `upto`.
    fn place(&mut self, upto: u32) -> u32
        ensures within { result ≤ upto }
        ensures drawn { places self.old upto result self.new };
}
