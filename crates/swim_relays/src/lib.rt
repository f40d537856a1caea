//! Requests of other members that wait for an ack, to be forwarded to them.
#![tactic(auto)]

mod requests;
mod waiting;

pub use requests::{Relays, TableFull};
pub use swim_wire::Key;
pub use waiting::MOST_WAITING;
