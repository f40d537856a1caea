//! The recorder of lives: it writes the journal of each down while the life goes on, tells those who watch what it
//! changes, and has a reporter hear of each call.
#![tactic(auto)]

mod entries;
mod guests;
mod journal_recorder;
pub mod laws;
mod nobody;
mod reporters;
mod shelves;
mod transcripts;

pub use journal_recorder::JournalRecorder;
pub use nobody::{NoEntrance, NoOutlet, NoReporter};
pub use reporters::{Reporter, Standing};
pub use shelves::Shelf;
pub use transcripts::Transcript;
