//! Laws of runs. Each is the contract of a function that does nothing, so that it stays proved.

ghost use Rattle.std.specs.Prelude.{◌≡◌, ◌↔◌, ◌+◌, ◌≤◌, ◌++◌, ◌∷◌, ℕ, List, length, true, if◌then◌else◌};
ghost use Rattle.swim_history.specs.declared.entries.Entry.{Entry};
ghost use Rattle.swim_wire.specs.Ids.{most_members};
ghost use Rattle.swim_history.specs.Setting.{Setting, IsSetting};
ghost use Rattle.swim_history.specs.Events.{is_start, is_tick};
ghost use Rattle.swim_history.specs.Clock.{period_number, phase};
ghost use Rattle.swim_history.specs.Rows.{row_at, row_of};
ghost use Rattle.swim_history.specs.Changes.{table, IsAscending};
ghost use Rattle.swim_history.specs.Run.{Continues, IsRun};
ghost use Rattle.swim_history.specs.Unchanged.{is_declining, IsUnchanged};
ghost use Rattle.swim_history.specs.Laws.Determined.{FitsOnce, StartsOnce};

/// In a run an entry begins a period exactly where it is an accepted tick at phase 0: a start by its
/// reply is a start by the clock.
pub fn starts_are_by_the_clock()
    ensures { (o : Setting) (h : List Entry) (e : Entry) → IsSetting o → Continues o h e →
        ((is_start e ≡ true) ↔ ((is_tick e ≡ true) × (phase o h ≡ 0))) }
{}

/// The last number used rises by one at each start of a run, and at no other entry.
pub fn numbers_rise_at_starts()
    ensures { (o : Setting) (h : List Entry) (e : Entry) → IsSetting o → Continues o h e →
        period_number o (e ∷ h) ≡ (if is_start e then period_number o h + 1 else period_number o h) }
{}

/// The older part of a run is a run.
pub fn older_part_is_a_run()
    ensures { (o : Setting) (newer before : List Entry) → IsRun o (newer ++ before) → IsRun o before }
{}

/// At most one reply fits a call, but for what is free: the order of a round, and with it who is probed,
/// the relays that are asked, and a joiner's place.
pub fn one_reply_fits()
    ensures settled { (o : Setting) → IsSetting o → FitsOnce o }
    ensures started { (o : Setting) → StartsOnce o }
{}

/// The member table shows the row of each member, its ids ascend, and in a run it has at most as many rows as
/// members may be known.
pub fn table_shows_members()
    ensures shows { (o : Setting) (h : List Entry) (id : ℕ) → row_at (table o h) id ≡ row_of o h id }
    ensures ascends { (o : Setting) (h : List Entry) → IsAscending (table o h) }
    ensures bound { (o : Setting) (h : List Entry) → IsSetting o → IsRun o h → length (table o h) ≤ most_members }
{}

/// A dropped message and a refused call change nothing that the rules look at: the clock, the round, the rows, the aim
/// and whether it was heard, the requests that wait. So what may follow them is what might have stood in their place.
pub fn declining_changes_nothing()
    ensures { (o : Setting) (h : List Entry) (e : Entry) → Continues o h e → is_declining e.reply ≡ true →
        IsUnchanged o h e }
{}
