//! What a worker of a life is: who calls a node with a seat of its own until the life is over, the gates that it asks
//! and sends by, and what it counts, sends and ends for.
#![tactic(auto)]

mod answers;
mod calling;
mod counts;
mod inboxes;
mod lines;
mod meters;
mod paces;
mod posts;
mod recorders;
mod rules;
mod sending;
mod tidings;
mod workers;

pub use answers::{has_joined, has_started, message_of};
pub use calling::Caller;
pub use counts::{Counts, Faults, Why};
pub use inboxes::TidingsInbox;
pub use lines::{Got, Line};
pub use meters::{Meter, Metered, Meters};
pub use paces::{Beat, Pace};
pub use posts::Post;
pub use recorders::Recorder;
pub use rules::RejoinLookup;
pub use sending::finish;
pub use tidings::{Note, Tidings, TidingsBoard};
pub use workers::{Done, End, Worker};
