//! What only proofs read: a list, for a value that is to say what it answered or handed on, and values as they were. They
//! take no memory.
#![tactic(auto)]

mod remembered;
mod trails;

pub use remembered::Remembered;
pub use trails::Trail;
