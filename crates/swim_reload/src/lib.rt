//! What a running daemon takes over of its configuration file, which it reads again, and what it tells of the rest.
#![tactic(auto)]

mod comparing;
mod in_force;
mod reloaded;
mod rereading;

pub use in_force::{START_KEYS, is_in_force};
pub use reloaded::{RELOADED_BYTES, put_reloaded};
pub use rereading::reread;
