//! One detector for four callers in threads of their own, readers of its member table that take no lock, and at the
//! end a journal of everything, in one order.
#![tactic(auto)]

mod board;
mod cells;
mod change_log;
mod following;
mod ledgers;
mod locked;
mod naming;
mod news;
mod node_openings;
mod nodes;
mod parts;
mod receipts;
mod seats;
mod shown;
mod viewers;

pub use following::{Followed, Follower};
pub use naming::Naming;
pub use news::News;
pub use nodes::Node;
pub use parts::Parts;
pub use receipts::{CallFault, OpenFault, Receipt};
pub use seats::Seat;
pub use viewers::Viewer;
