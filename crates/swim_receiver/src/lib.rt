//! The receiver, a worker of a life: it hears the datagrams of a line for a node, joins members again that come back, and
//! shows the line the members.
#![tactic(auto)]

mod joining;
mod laws;
mod looking;
mod receivers;
mod rejoining;

pub use laws::each_datagram_is_heard;
pub use receivers::Receiver;
pub use rejoining::Returning;
