//! How a command of the daemon's program ends, what a person is told of it, and what the program says of itself and of
//! the system.
#![tactic(auto)]

mod details;
mod outcomes;
mod printed;
mod system_words;
mod telling;
mod versions;

pub use details::Details;
pub use outcomes::{Outcome, put_outcome};
pub use printed::{TEXT_BYTES, add_printed};
pub use system_words::{words_of, words_why};
pub use telling::tell_outcome;
pub use versions::{VERSION, VERSION_LINE};
