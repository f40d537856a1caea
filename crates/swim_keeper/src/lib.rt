//! The keeper of a daemon's lives: what is done between them. It announces each life, opens and takes back the file of
//! its journal, and writes a line that tells how it ended.
#![tactic(auto)]

mod endings;
mod keepers;
pub mod laws;

pub use keepers::LifeKeeper;
