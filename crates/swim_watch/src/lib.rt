//! What a daemon tells those who watch it, read line by line, and shown as it came or as JSON.
#![tactic(auto)]

mod feed_events;
mod feeds;
pub mod laws;
mod objects;
mod watching;

pub use feed_events::{FeedEvent, NoEvent, read_said};
pub use feeds::{EventLine, Feed, LINE_BYTES};
pub use objects::show;
pub use watching::{WatchEnd, watch};
