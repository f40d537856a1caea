//! What became of the datagrams of a probe, found in the journals of several members.
#![tactic(auto)]

mod acts;
mod beats;
mod conclusions;
mod fates;
mod index;
mod legs;
mod presences;

pub use acts::{Act, Answer, Deed, Hearing, ProbeName, Spot};
pub use beats::{Beat, Rhythm};
pub use conclusions::{Conclusion, conclusion_on};
pub use fates::{Case, Fate, Way, is_heard_on, is_passed_on, ways_of};
pub use index::ActIndex;
pub use legs::Leg;
pub use presences::{Pace, Presence};
