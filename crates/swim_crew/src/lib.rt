//! Lives of a node: three workers call it at the same time and a recorder reads its journal, whoever they are.
#![tactic(auto)]

mod crews;
mod jobs;
mod keepers;
mod laws;
mod life;
mod lives;
mod named_lives;
mod pasts;
mod threads;
mod working;

pub use crews::{Crew, Seats};
pub use keepers::Keeper;
pub use laws::{View, each_life_moves_a_view};
pub use life::{Life, run_life};
pub use lives::{live, run_lives};
pub use pasts::{Ends, LivesEnd, Past, Terms};
