//! Entries as they are read, told to all who watch.

ghost use Rattle.std.specs.Prelude.{◌≡◌, ◌∷◌, List};
ghost use Rattle.swim_history.specs.declared.entries.Entry.{Entry};
ghost use Rattle.swim_history.specs.Setting.{Setting, IsSetting};
ghost use Rattle.swim_history.specs.Changes.{change_by};
ghost use Rattle.swim_history.specs.Run.{IsRun};
ghost use Rattle.swim_events.specs.Guests.{told_of};
ghost use Rattle.swim_events.specs.Telling.{AreTold};
ghost use Rattle.swim_events.specs.Watched.{Lived, lived_on};
ghost use Rattle.swim_events.specs.Watching.{known, number_then, rows_then};

use crate::events::Event;
use crate::galleries::Gallery;
use crate::outlets::Outlet;
use crate::watching::Watching;
use swim_history::{Call, Change, Reply};

/// Goes one entry on, and tells its change, if it makes one, to all who watch. Where the entries are those of a run,
/// what is known is the run's with this entry, and all who were told the run are told it with this entry.
pub fn tell_next<E: Outlet + Drop>(
    watching: &mut Watching,
    gallery: &mut Gallery<E>,
    call: &Call,
    reply: &Reply,
) -> Option<Change>
    ensures change { result ≡ change_by call.now reply.now watching.old.number }
    ensures rows { watching.new.rows ≡ rows_then result watching.old.rows }
    ensures number { watching.new.number ≡ number_then reply.now watching.old.number }
    ensures guests { gallery.new ≡ told_of result gallery.old }
    ensures known { (o : Setting) (h : List Entry) (e : Entry) → IsSetting o → IsRun o (e ∷ h) →
        e.call ≡ call.now → e.reply ≡ reply.now → watching.old ≡ known o h → watching.new ≡ known o (e ∷ h) }
    ensures told { (life : Lived) (older : List Lived) (e : Entry) →
        e.call ≡ call.now → e.reply ≡ reply.now → watching.old ≡ known life.opening life.past →
        AreTold (life ∷ older) gallery.old → AreTold (lived_on life e ∷ older) gallery.new }
{
    let change = watching.next(call, reply);
    tell_change(gallery, &change);
    change
}

/// Tells a change, if there is one.
fn tell_change<E: Outlet + Drop>(gallery: &mut Gallery<E>, change: &Option<Change>)
    ensures { gallery.new ≡ told_of change.now gallery.old }
{
    if let Some(change) = change {
        gallery.tell(&Event::Changed(*change));
    }
}
