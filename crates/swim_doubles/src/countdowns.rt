//! Calls that are counted down to the one that fails.

ghost use Rattle.std.specs.Prelude.{◌≡◌, ◌↔◌, Some, IsTrue};
ghost use Rattle.swim_doubles.specs.Countdowns.{counted_down};

/// Counts a call, and answers whether it is the one that fails.
pub(crate) fn is_due(fails_in: &mut Option<u32>) -> bool
    ensures due { IsTrue result ↔ (fails_in.old ≡ Some 0) }
    ensures later { fails_in.new ≡ counted_down fails_in.old }
{
    let is_due = *fails_in == Some(0);
    *fails_in = match *fails_in {
        Some(calls) if calls > 0 => Some(calls - 1),
        _ => None,
    };
    is_due
}
