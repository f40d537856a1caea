//! Those who come to watch a life, and what they are sent.

ghost use Rattle.swim_recorder.specs.Recording.{StillTells};

use std::alloc::Global;
use swim_events::{Entrance, Gallery, MOST_WATCHERS, Outlet, Watching};

/// Takes in who has come to watch, and sends to each what it takes now. It waits for nobody, and gives up to whom
/// nothing could be sent for ten seconds.
pub(crate) fn serve<E: Outlet + Drop, I: Entrance<E>>(
    alloc: Global,
    watching: &Watching,
    gallery: &mut Gallery<E>,
    entrance: &mut I,
)
    ensures { StillTells watching.now gallery.old gallery.new }
{
    let_all_in(alloc, watching, gallery, entrance);
    let time = entrance.now();
    gallery.send(time);
}

/// Takes in all who have come.
fn let_all_in<E: Outlet + Drop, I: Entrance<E>>(
    alloc: Global,
    watching: &Watching,
    gallery: &mut Gallery<E>,
    entrance: &mut I,
)
    ensures { StillTells watching.now gallery.old gallery.new }
{
    for _newcomer in 0..MOST_WATCHERS {
        if !let_in(alloc, watching, gallery, entrance) {
            return;
        }
    }
}

/// Takes in the next who has come: whether there was one.
fn let_in<E: Outlet + Drop, I: Entrance<E>>(
    alloc: Global,
    watching: &Watching,
    gallery: &mut Gallery<E>,
    entrance: &mut I,
) -> bool
    ensures { StillTells watching.now gallery.old gallery.new }
{
    if gallery.is_full() {
        return false;
    }
    let Some(outlet) = entrance.next() else {
        return false;
    };
    let _is_in = gallery.admit(alloc, watching.rows(), outlet);
    true
}
