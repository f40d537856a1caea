//! The list of members that are probed in turn, and who chooses its order.
#![tactic(auto)]

mod choosers;
mod draws;
mod places;
mod rounds;
mod scripts;

pub use choosers::Chooser;
pub use draws::Seeded;
pub use rounds::{JoinFault, Next, Targets};
pub use scripts::Scripted;
pub use swim_wire::Order;
