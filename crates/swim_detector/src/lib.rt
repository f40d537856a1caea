//! The sequential detector: it answers calls one after the other, and keeps the journal of them.
#![tactic(auto)]

pub mod laws;
mod recorder;
mod states;

pub use recorder::{ApplyFault, Recorder};
