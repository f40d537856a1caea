//! What those are told who watch a member table: its lines, and a line for each change, as it happens.
#![tactic(auto)]

mod events;
mod galleries;
mod guests;
pub mod laws;
mod outlets;
mod telling;
mod watchers;
mod watching;

pub use events::{Event, EventText, LINE_BYTES, event_of_row, line_of};
pub use galleries::{Gallery, MOST_WATCHERS};
pub use outlets::{Entrance, Offer, Outlet};
pub use telling::tell_next;
pub use watchers::{WATCHER_BYTES, Watcher, WatcherStanding};
pub use watching::Watching;
