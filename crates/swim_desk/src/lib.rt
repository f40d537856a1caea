//! The controller, a worker of a life: it lets operators in by a door, and asks a node what their control lines ask.
#![tactic(auto)]

mod controllers;
mod doors;
mod halls;
mod laws;
mod node_desk;
mod serving;
mod speakers;

pub use controllers::Controller;
pub use doors::{Door, Knock};
pub use halls::Hall;
pub use laws::{a_connection_ends_a_life, each_line_is_called};
pub use speakers::Speaker;
