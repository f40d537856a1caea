//! How people are told something while a program runs: lines of text, each handed on at once, and who tells that a life
//! begins.
#![tactic(auto)]

mod heralds;
mod telling;

pub use heralds::Herald;
pub use telling::tell_line;
