//! Doubles for tests: a source and a sink in memory that fail where they are told to. No program stands on them.
#![tactic(auto)]

mod countdowns;
mod pages;
mod texts;

pub use pages::FailingPage;
pub use texts::Text;
