//! Laws of what watchers are told. Each is the contract of a function that does nothing, so that it stays proved.

ghost use Rattle.std.specs.Prelude.{◌≡◌, ◌++◌, ◌∷◌, [], ℕ, List, map, take};
ghost use Rattle.std.specs.Option.{option_to_list};
ghost use Rattle.swim_history.specs.declared.entries.Entry.{Entry};
ghost use Rattle.swim_history.specs.declared.rows.Row.{Row};
ghost use Rattle.swim_history.specs.declared.rows.Change.{Change};
ghost use Rattle.swim_history.specs.Setting.{Setting};
ghost use Rattle.swim_history.specs.Clock.{period_number};
ghost use Rattle.swim_history.specs.Changes.{change_by, changes, rows_after, table};
ghost use Rattle.swim_history.specs.After.{setting_after};
ghost use Rattle.swim_events.specs.Texts.{changes_text, life_text, shown, table_text};
ghost use Rattle.swim_events.specs.Watchers.{AtWatcher, after_sent};
ghost use Rattle.swim_events.specs.declared.watchers.WatcherStanding.TheVariants.{Following};
ghost use Rattle.swim_events.specs.Telling.{IsTelling, IsTellingOver};
ghost use Rattle.swim_events.specs.Watched.{IsTold, IsWatched, IsWatchedOver, Lived, lines_after, lived_on};

/// Who is put the table first, and later the change of each entry, is told the table of a beginning of the history and
/// then just these changes, while it keeps up, whatever was sent of it so far. Who doesn't keep up is told the same of
/// a beginning of the history, and that it is lost.
pub fn watchers_are_told_the_changes()
    ensures begins { (o : Setting) (h : List Entry) →
        IsTelling o h [] (record { pending = table_text (table o h); standing = Following }) }
    ensures sends { (o : Setting) (h : List Entry) (sent : List ℕ) (count : ℕ) (w : AtWatcher) →
        IsTelling o h sent w → IsTelling o h (sent ++ take count w.pending) (after_sent count w) }
    ensures told { (o : Setting) (h : List Entry) (sent : List ℕ) (w : AtWatcher) →
        IsTelling o h sent w → IsTold w.standing o h (sent ++ w.pending) }
{}

/// Who watches over lives and keeps up was told the table of a beginning of the life in which it came, the changes
/// after it, and of each later life its line and all its changes; who came in the only life, is told its history.
pub fn watchers_are_told_the_lives()
    ensures keeps_up { (lives : List Lived) (sent : List ℕ) (w : AtWatcher) → IsTellingOver lives sent w →
        w.standing ≡ Following →
        (since : List Lived) × (older : List Lived) × (lives ≡ since ++ older) × IsWatchedOver since (sent ++ w.pending) }
    ensures one { (life : Lived) (sent : List ℕ) (w : AtWatcher) → IsTellingOver (life ∷ []) sent w →
        IsTelling life.opening life.past sent w }
{}

/// A watcher begins with the table, and goes on with the change of each entry.
pub fn a_watcher_goes_on_by_entries()
    ensures begins { (o : Setting) (h : List Entry) → IsWatched o h (table_text (table o h)) }
    ensures goes_on { (o : Setting) (h : List Entry) (e : Entry) (text : List ℕ) → IsWatched o h text →
        IsWatched o (e ∷ h)
        (text ++ changes_text (option_to_list (change_by e.call e.reply (period_number o h)))) }
{}

/// So it does over lives: a life begins with its line, whatever it starts from, and goes on with the change of each
/// entry.
pub fn a_watcher_goes_on_over_lives()
    ensures begins { (lives : List Lived) (number : ℕ) (o : Setting) (text : List ℕ) → IsWatchedOver lives text →
        IsWatchedOver (record { number = number; opening = o; past = [] } ∷ lives) (text ++ life_text number) }
    ensures goes_on { (life : Lived) (older : List Lived) (e : Entry) (text : List ℕ) →
        IsWatchedOver (life ∷ older) text →
        IsWatchedOver (lived_on life e ∷ older)
        (text ++ changes_text (option_to_list (change_by e.call e.reply (period_number life.opening life.past)))) }
{}

/// After the changes that a watcher was told the table is what they make of the one that it was told first, and the
/// watcher can make its lines of those that it has.
pub fn a_watcher_can_rebuild_the_table()
    ensures rows { (o : Setting) (h before : List Entry) (later : List Change) →
        changes o h ≡ changes o before ++ later → table o h ≡ rows_after (table o before) later }
    ensures lines { (rows : List Row) (later : List Change) →
        map shown (rows_after rows later) ≡ lines_after (map shown rows) later }
{}

/// A life begins with the table that the one before left, and goes on from it: a watcher's table stays as it is.
pub fn a_life_begins_with_the_table_before_it()
    ensures begins { (o : Setting) (h : List Entry) → table (setting_after o h) [] ≡ table o h }
    ensures goes_on { (o : Setting) (h later : List Entry) →
        table (setting_after o h) later ≡ rows_after (table o h) (changes (setting_after o h) later) }
{}
