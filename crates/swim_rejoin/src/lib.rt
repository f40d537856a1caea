//! Members that come back, and partitions that heal: whom a member knocks at that it judged failed, and whom it joins
//! again after what it hears. It is a policy above the detector, made of the detector's own calls.
#![tactic(auto)]

mod knockers;
mod knocks;
mod known;
pub mod laws;
mod marks;
mod rejoiners;
mod waits;

pub use knockers::{KnockPing, Knocker};
pub use rejoiners::Rejoiner;
