//! The clock of a run.

ghost use Rattle.std.specs.Prelude.{◌≡◌, ◌<◌, ◌^◌, ◌∷◌, List};
ghost use Rattle.swim_history.specs.declared.entries.Choice.{Choice};
ghost use Rattle.swim_history.specs.declared.entries.Entry.{Entry};
ghost use Rattle.swim_history.specs.Called.{entry_of};
ghost use Rattle.swim_history.specs.Clock.{number_at, ticks as ticks_of};

use swim_history::{Call, Called, Opening, Reply};

/// How many ticks there are with one more entry, of this call and this reply.
pub(crate) fn ticks_with(ticks: u32, called: &Called) -> u32
    requires { ticks < u32.MAX }
    ensures { (h : List Entry) (choice : Choice) → ticks ≡ ticks_of h →
        result ≡ ticks_of (entry_of called.now choice ∷ h) }
{
    match (&called.call, &called.reply) {
        (Call::Tick, Reply::Refused(_)) => ticks,
        (Call::Tick, _) => ticks + 1,
        _ => ticks,
    }
}

/// The last period number used after so many ticks.
pub(crate) fn number_at(opening: &Opening, ticks: u32) -> u64
    requires { number_at opening.now.last opening.now.period ticks < 2 ^ 64 }
    ensures { result ≡ number_at opening.now.last opening.now.period ticks }
{
    if ticks == 0 {
        return opening.last();
    }
    let begun = u64::from((ticks - 1) / opening.period());
    opening.last() + 1 + begun
}
