//! A fence against floods, a token bucket for each member's address and one for all other addresses together: up to a
//! number of datagrams a second, and as many again at once.
#![tactic(auto)]

mod buckets;
mod fences;
pub mod laws;
mod places;

pub use fences::Fence;
