//! Notices: lines that a running daemon or `swimd web` writes for people on standard error.
#![tactic(auto)]

mod notices;

pub use notices::Notice;
