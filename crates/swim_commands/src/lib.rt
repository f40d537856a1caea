//! The commands of the daemon's program: its words, what a person is told of words that ask nothing, and the clients of
//! a daemon that runs (`ask`, `watch`).
#![tactic(auto)]

mod ages;
mod answers;
mod ask;
mod ask_words;
mod askers;
mod control_lines;
mod event_sockets;
mod file_words;
mod forms;
mod hints;
mod member_tables;
mod names;
mod options;
mod sockets;
mod surroundings;
mod watch;
mod web_words;
mod words;

pub use answers::ControlAnswer;
pub use ask::ask_daemon;
pub use ask_words::{Request, has_feed};
pub use askers::{Asker, Came};
pub use forms::Form;
pub use hints::{explain_no_text, explain_words};
pub use sockets::ControlSocket;
pub use surroundings::Surroundings;
pub use watch::watch_daemon;
pub use web_words::WebRequest;
pub use words::{Asked, Unasked, read_words};
